// Why a trace can't be played to its end.
ghost use Rattle.std.specs.Prelude.{◌≡◌, map, string_bytes};
ghost use Rattle.std.specs.Option.{option_map, option_and_then};
ghost use Rattle.options.specs.Places.{word_at, file_named};
ghost use Rattle.play.specs.Faults.{told_bytes, fault_of};
ghost use Rattle.play.specs.declared.faults.Fault.TheVariants as fault;

use closing::Stop;
use console::Asked;
use picture::Undrawable;
use std::alloc::AllocError;
use std::{fmt, io};

#[derive(Drop)]
pub(crate) enum Fault {
    // the input can't be opened or read
    Input(io::Error),
    // the lines can't be written
    Output(io::Error),
    // the input ends inside its header, after so many bytes
    InHeader(usize),
    // the input ends inside a request, after so many whole ones
    InRequest(u64),
    // a word of the text is no page, of which this is said
    Word(String),
    // the picture can't be written
    Picture(io::Error),
    // there is no report to draw
    NoPicture,
    // there is no memory for the lines
    Memory,
}

impl From<fmt::Error> for Fault {
    ghost from_gives = { λ _ r. r ≡ fault.Memory };

    fn from(_error: fmt::Error) -> Fault {
        Fault::Memory
    }
}

impl From<AllocError> for Fault {
    ghost from_gives = { λ _ r. r ≡ fault.Memory };

    fn from(_error: AllocError) -> Fault {
        Fault::Memory
    }
}

// Only `closing::draw` answers a `Stop`.
impl From<Stop> for Fault {
    ghost from_gives = { λ stop r. r ≡ fault_of stop };

    fn from(stop: Stop) -> Fault {
        match stop {
            Stop::Refused(_) => Fault::NoPicture,
            Stop::Memory => Fault::Memory,
        }
    }
}

// A fault, as it is told to whoever asked: in words of this program, as `challenge` has its own. What both share is `console::status`,
// which prints it.
#[derive(Drop)]
pub(crate) struct Told<'a> {
    pub(crate) asked: &'a Asked,
    pub(crate) fault: Fault,
}

impl fmt::Display for Told<'_> {
    ghost output = { λ t. told_bytes (file_named t.asked.now.given (map string_bytes t.asked.now.words.items)) t.fault };

    fn fmt<W: fmt::Write>(&self, f: &mut fmt::Formatter<W>) -> fmt::Result {
        let name = self.asked.file().unwrap_or("standard input");
        match &self.fault {
            Fault::Input(e) => write!(f, "play: cannot read {name}: {e}"),
            Fault::Output(e) => write!(f, "play: cannot write to standard output: {e}"),
            Fault::InHeader(n) => write!(
                f,
                "play: {name} ends inside its header, after {n} of 4 bytes"
            ),
            Fault::InRequest(n) => write!(
                f,
                "play: {name} ends inside a request, after request {n}"
            ),
            Fault::Word(said) => write!(f, "{name}:{said}"),
            Fault::Picture(e) => {
                let path = picture_of(self.asked).unwrap_or("");
                write!(f, "play: cannot write {path}: {e}")
            }
            Fault::NoPicture => write!(f, "play: {}", Undrawable::NoRow),
            Fault::Memory => write!(f, "play: out of memory"),
        }
    }
}

// The file that the picture of the report goes to, where one is asked for.
pub(crate) fn picture_of(asked: &Asked) -> Option<&str>
    ensures value { option_map (λ w. w.now) result ≡ option_and_then (word_at (map string_bytes asked.now.words.items)) asked.now.given.svg }
{
    asked.given.svg.and_then(|place| asked.word(place))
}
