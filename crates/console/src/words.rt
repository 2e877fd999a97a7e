// The arguments of a program.
ghost use Rattle.std.specs.Prelude.{◌≡◌, map, Ok, IfOk, IfErr, string_bytes};
ghost use Rattle.std.specs.Option.{option_map};
ghost use Rattle.options.specs.Arguments.{arguments};
ghost use Rattle.options.specs.Places.{word_at, file_named};
ghost use Rattle.std.specs.Process.{exit_status};

use crate::ends::status;
use options::{Given, Program, word_at};
use std::process::ExitCode;
use std::{env, io};
use wrongs::Message;

// The arguments of a program, and what they say.
#[derive(Drop)]
pub struct Asked {
    pub words: Vec<String>,
    pub given: Given,
}

impl Asked {
    // The argument at a place, from 1, where there is one.
    pub fn word(&self, place: usize) -> Option<&str>
        ensures value { option_map (λ w. w.now) result ≡ word_at (map string_bytes self.now.words.items) place }
    {
        word_at(&self.words, place)
    }

    // The file that is named, or none where standard input is meant.
    pub fn file(&self) -> Option<&str>
        ensures value { option_map (λ w. w.now) result ≡ file_named self.now.given (map string_bytes self.now.words.items) }
    {
        self.given.file_in(&self.words)
    }
}

// The arguments, without the program's own name.
fn arguments(rt: &HostRuntime) -> io::Result<Vec<String>> {
    let mut words = env::args(rt)?;
    words.next();
    Ok(words.collect(rt.alloc())?)
}

// Reads the arguments of a program. Where they can't be read or are wrong, standard error says why, and the status that the program ends with
// comes back.
pub fn ask(rt: &HostRuntime, program: Program) -> Result<Asked, ExitCode>
    ensures read { IfOk result (λ asked. arguments program (map string_bytes asked.words.items) ≡ Ok asked.given) }
    ensures failed { IfErr result (λ status. exit_status status ≡ 1) }
{
    let words = match arguments(rt) {
        Ok(words) => words,
        Err(e) => {
            let _ = eprintln!(rt; "{program}: cannot read the arguments: {e}");
            return Err(ExitCode::FAILURE);
        }
    };
    match Given::read(program, &words) {
        Ok(given) => Ok(Asked { words, given }),
        Err(wrong) => {
            let message = Message::new(program, wrong, &words);
            Err(status(rt, Err(message)))
        }
    }
}
