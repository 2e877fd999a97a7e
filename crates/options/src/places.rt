// Arguments by their places.
ghost use Rattle.std.specs.Prelude.{◌≡◌, map, string_bytes};
ghost use Rattle.std.specs.Option.{option_map};
ghost use Rattle.options.specs.Places.{word_at, place_at, file_named};

use crate::given::Given;
use crate::values::Wrong;

// The argument at a place, from 1, where there is one.
pub fn word_at(words: &[String], place: usize) -> Option<&str>
    ensures value { option_map (λ w. w.now) result ≡ word_at (map string_bytes words.now) place }
{
    let word = words.get(place.checked_sub(1)?)?;
    Some(word.as_str())
}

impl Given {
    // The file that is named among the words, or none where standard input is meant.
    pub fn file_in<'a>(&self, words: &'a [String]) -> Option<&'a str>
        ensures value { option_map (λ w. w.now) result ≡ file_named self.now (map string_bytes words.now) }
    {
        self.file
            .and_then(|place| word_at(words, place))
            .filter(|name| *name != "-")
    }
}

impl Wrong {
    // Which argument is at fault, where one is.
    pub fn place(self) -> Option<usize>
        ensures value { result ≡ place_at self }
    {
        match self {
            Wrong::Unknown(i) | Wrong::Value(_, i) | Wrong::SecondFile(i) => Some(i),
            Wrong::Missing(_) | Wrong::Together(_, _) => None,
        }
    }
}
