// Why a challenge is not told to its end. The conversions are written out, since what each makes is promised. There is a variant for each error,
// and no `Stop` or `UnknownPolicy` in one, since the variants are public.
ghost use Rattle.std.specs.Prelude.{◌≡◌};
ghost use Rattle.contest.specs.Contest.{fault_of};
ghost use Rattle.contest.specs.Faults.{fault_bytes};
ghost use Rattle.contest.specs.declared.faults.Fault.TheVariants as fault;

use lru_cache::{Refusal, Stop};
use std::alloc::AllocError;
use std::error::Error;
use std::{fmt, io};
use trace::UnknownPolicy;

#[derive(Clone, Copy, Debug)]
pub enum Fault {
    // there is no policy of that number
    NoPolicy(u8),
    // the challenge was refused
    Refused(Refusal),
    // the lines can't be written
    Output(io::Error),
    // there is no memory
    Memory,
}

impl From<UnknownPolicy> for Fault {
    ghost from_gives = { λ unknown r. r ≡ fault.NoPolicy unknown.0 };

    fn from(unknown: UnknownPolicy) -> Fault {
        Fault::NoPolicy(unknown.0)
    }
}

impl From<Refusal> for Fault {
    ghost from_gives = { λ refusal r. r ≡ fault.Refused refusal };

    fn from(refusal: Refusal) -> Fault {
        Fault::Refused(refusal)
    }
}

impl From<Stop> for Fault {
    ghost from_gives = { λ stop r. r ≡ fault_of stop };

    fn from(stop: Stop) -> Fault {
        match stop {
            Stop::Refused(refusal) => Fault::Refused(refusal),
            Stop::Memory => Fault::Memory,
        }
    }
}

impl From<AllocError> for Fault {
    ghost from_gives = { λ _ r. r ≡ fault.Memory };

    fn from(_error: AllocError) -> Fault {
        Fault::Memory
    }
}

impl From<fmt::Error> for Fault {
    ghost from_gives = { λ _ r. r ≡ fault.Memory };

    fn from(_error: fmt::Error) -> Fault {
        Fault::Memory
    }
}

impl From<io::Error> for Fault {
    ghost from_gives = { λ error r. r ≡ fault.Output error };

    fn from(error: io::Error) -> Fault {
        Fault::Output(error)
    }
}

impl fmt::Display for Fault {
    ghost output = { fault_bytes };

    fn fmt<W: fmt::Write>(&self, f: &mut fmt::Formatter<W>) -> fmt::Result {
        match self {
            Fault::NoPolicy(number) => UnknownPolicy(*number).fmt(f),
            Fault::Refused(refusal) => refusal.fmt(f),
            Fault::Output(error) => write!(f, "cannot write the lines: {error}"),
            Fault::Memory => f.write_str("out of memory"),
        }
    }
}

impl Error for Fault {}
