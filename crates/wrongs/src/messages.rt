// What is said of wrong arguments.
ghost use Rattle.std.specs.Prelude.{◌≡◌, map, Some, string_bytes};
ghost use Rattle.wrongs.specs.Messages.{wants, at_most_one, word_of, wrong_line};

use options::{MOST_PLACES, MOST_ROUNDS, Opt, Program, Wrong, word_at};
use std::error::Error;
use std::fmt;

// What an option takes for a value.
#[derive(Clone, Copy)]
struct Wanted(Opt);

impl fmt::Display for Wanted {
    ghost output = { λ w. Some (wants w.0) };

    fn fmt<W: fmt::Write>(&self, f: &mut fmt::Formatter<W>) -> fmt::Result {
        match self.0 {
            Opt::Places | Opt::Report | Opt::Rival => {
                write!(f, "a number from 1 to {MOST_PLACES}")
            }
            Opt::Rounds => write!(f, "a number from 0 to {MOST_ROUNDS}"),
            Opt::Policy => f.write_str("lru, fifo or lfu"),
            Opt::Svg => f.write_str("a file name"),
            _ => f.write_str("no value"),
        }
    }
}

// What there may be one of, where argument i is a second file: argument 2 is one only behind a file alone, and later ones may have options before
// them.
fn at_most_one(i: usize) -> &'static str
    ensures value { result.now ≡ at_most_one i }
{
    if i == 2 { "argument" } else { "file" }
}

// What is wrong with the arguments of a program, as it is said; `word` is the argument at fault.
#[derive(Clone, Copy, Debug, PartialEq, Eq)]
pub struct Message<'a> {
    pub wrong: Wrong,
    pub program: Program,
    pub word: &'a str,
}

impl<'a> Message<'a> {
    // What is wrong with these arguments.
    pub fn new(program: Program, wrong: Wrong, words: &'a [String]) -> Message<'a>
        ensures program { result.program ≡ program }
        ensures wrong { result.wrong ≡ wrong }
        ensures word { result.word.now ≡ word_of wrong (map string_bytes words.now) }
    {
        let word = wrong.place().and_then(|place| word_at(words, place));
        Message {
            wrong,
            program,
            word: word.unwrap_or(""),
        }
    }
}

impl fmt::Display for Message<'_> {
    ghost output = { λ m. Some (wrong_line m.program m.wrong m.word.now) };

    fn fmt<W: fmt::Write>(&self, f: &mut fmt::Formatter<W>) -> fmt::Result {
        let Message {
            wrong,
            program,
            word,
        } = *self;
        match wrong {
            Wrong::Unknown(_) => write!(
                f,
                "{program}: unknown option '{word}' (see {program} --help)"
            ),
            Wrong::Value(option, _) => {
                let wanted = Wanted(option);
                write!(f, "{program}: {option} needs {wanted}, not '{word}'")
            }
            Wrong::Missing(option) => {
                let wanted = Wanted(option);
                write!(f, "{program}: {option} needs {wanted}")
            }
            Wrong::SecondFile(i) => {
                let one = at_most_one(i);
                write!(f, "{program}: argument {i}: there may be one {one} at most")
            }
            Wrong::Together(first, second) => {
                write!(f, "{program}: {first} does not go with {second}")
            }
        }
    }
}

impl Error for Message<'_> {}
