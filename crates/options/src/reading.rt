// The arguments one after the other.
ghost use Rattle.std.specs.Prelude.{◌≡◌, map, string_bytes};
ghost use Rattle.options.specs.Arguments.{arguments};

use crate::given::Given;
use crate::names::{Opt, Program};
use crate::values::{Wrong, dashed};

// What the arguments so far say.
#[derive(Clone, Copy, Default)]
struct Reading {
    given: Given,
    // the option whose value comes next
    awaits: Option<Opt>,
}

impl Reading {
    ghost use Rattle.options.specs.Arguments.{named, step, ended};
    ghost use Rattle.options.specs.Names.{options_of, find};

    // An argument that is no value: an option, or a file.
    fn named(self, option: Option<Opt>, i: usize, word: &str) -> Result<Reading, Wrong>
        ensures value { result ≡ named self i word.now option }
    {
        let given = match option {
            Some(option) => match self.given.switched(option) {
                Some(given) => given,
                None => {
                    return Ok(Reading {
                        awaits: Some(option),
                        ..self
                    });
                }
            },
            None if dashed(word) => return Err(Wrong::Unknown(i)),
            None if self.given.file.is_some() => return Err(Wrong::SecondFile(i)),
            None => Given {
                file: Some(i),
                ..self.given
            },
        };
        Ok(Reading {
            given,
            awaits: None,
        })
    }

    // One argument more.
    fn step(self, program: Program, i: usize, word: &str) -> Result<Reading, Wrong>
        ensures value { result ≡ step program self i word.now }
    {
        let Some(option) = self.awaits else {
            return self.named(program.option(word), i, word);
        };
        let given = self
            .given
            .with_value(option, i, word)
            .ok_or(Wrong::Value(option, i))?;
        Ok(Reading {
            given,
            awaits: None,
        })
    }

    fn ended(self) -> Result<Given, Wrong>
        ensures value { result ≡ ended self self.awaits }
    {
        match self.awaits {
            Some(option) => Err(Wrong::Missing(option)),
            None => self.given.settled(),
        }
    }
}

impl Given {
    // What the arguments of a program say, or what is wrong with the first that is wrong.
    #[tactic(auto, unfolding(crate::specs::Arguments::read_from))]
    pub fn read(program: Program, words: &[String]) -> Result<Given, Wrong>
        ensures value { result ≡ arguments program (map string_bytes words.now) }
    {
        let mut reading = Reading::default();
        // `(1..).zip(words)` was tried: it ends at the largest `usize`, and that no word is left there did not close.
        for (i, word) in words.iter().enumerate() {
            reading = reading.step(program, i + 1, word.as_str())?;
        }
        reading.ended()
    }
}
