// What an option takes for its value.
ghost use Rattle.std.specs.Prelude.{◌≡◌};
ghost use Rattle.options.specs.Arguments.{dashed, names_file, number_within};

use crate::names::Opt;

// The most places that a cache may have: recency's `MAX_CAPACITY`. A number of its own, since no crate below has that one.
pub const MOST_PLACES: u64 = 4096;

// The most rounds of a challenge, whose settings have two bytes for them.
pub const MOST_ROUNDS: u64 = 65535;

// What is wrong with the arguments: with the one at a place, or with an option. It takes the program and the argument at fault to tell it, so
// `wrongs::Message` is what is displayed.
#[derive(Clone, Copy, Debug, PartialEq, Eq)]
pub enum Wrong {
    // an option that there is not
    Unknown(usize),
    // no value for the option
    Value(Opt, usize),
    // the arguments end where its value should stand
    Missing(Opt),
    // a second argument that is no option
    SecondFile(usize),
    // two options of which one is in the other's way
    Together(Opt, Opt),
}

// Whether the word begins as an option does, and is more than the `-` that stands for standard input.
pub(crate) fn dashed(word: &str) -> bool
    ensures value { result ≡ dashed word.now }
{
    matches!(word.as_bytes(), [b'-', _, ..])
}

// Whether the word can name a file that is written: `-` and what begins as an option does can't, and no word at all.
pub(crate) fn names_file(word: &str) -> bool
    ensures value { result ≡ names_file word.now }
{
    match word.as_bytes() {
        [] | [b'-', ..] => false,
        _ => true,
    }
}

// The number that the word is, where it is one of these. Two numbers and no `RangeInclusive`: where a loop has used one up, its `exhausted` is true
// and `contains` leaves out the end, so the clause would ask for one where it is false.
pub(crate) fn number_within(low: u64, high: u64, word: &str) -> Option<usize>
    ensures value { result ≡ number_within low high word.now }
{
    if word.is_empty() {
        return None;
    }
    let number = text::number(word.as_bytes())?;
    (low..=high).contains(&number).then_some(number as usize)
}
