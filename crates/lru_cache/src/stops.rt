// Why something is not told to its end.
ghost use Rattle.std.specs.Prelude.{◌≡◌, Some};
ghost use Rattle.lru_cache.specs.Stops.{stop_bytes};
ghost use Rattle.lru_cache.specs.declared.stops.Stop.TheVariants as stop;

use crate::refusals::Refusal;
use std::alloc::AllocError;
use std::error::Error;
use std::fmt;

// The conversions are written out, since what each makes is promised.
#[derive(Clone, Copy, Debug, PartialEq, Eq)]
pub enum Stop {
    // it was refused
    Refused(Refusal),
    // there is no memory for what is told
    Memory,
}

impl From<Refusal> for Stop {
    ghost from_gives = { λ refusal r. r ≡ stop.Refused refusal };

    fn from(refusal: Refusal) -> Stop {
        Stop::Refused(refusal)
    }
}

impl From<AllocError> for Stop {
    ghost from_gives = { λ _ r. r ≡ stop.Memory };

    fn from(_error: AllocError) -> Stop {
        Stop::Memory
    }
}

impl From<fmt::Error> for Stop {
    ghost from_gives = { λ _ r. r ≡ stop.Memory };

    fn from(_error: fmt::Error) -> Stop {
        Stop::Memory
    }
}

impl fmt::Display for Stop {
    ghost output = { λ s. Some (stop_bytes s) };

    fn fmt<W: fmt::Write>(&self, f: &mut fmt::Formatter<W>) -> fmt::Result {
        match self {
            Stop::Refused(why) => why.fmt(f),
            Stop::Memory => f.write_str("out of memory"),
        }
    }
}

impl Error for Stop {}
