// Why a run was stopped.
ghost use Rattle.std.specs.Prelude.{Some};
ghost use Rattle.runs.specs.Stopped.{stopped_bytes};

use lru_cache::Refusal;
use std::error::Error;
use std::fmt;

// A run that was stopped: after how many requests, and why.
#[derive(Clone, Copy, Debug, PartialEq, Eq)]
pub struct Stopped {
    pub after: u64,
    pub refusal: Refusal,
}

impl fmt::Display for Stopped {
    ghost output = { λ s. Some (stopped_bytes s) };

    fn fmt<W: fmt::Write>(&self, f: &mut fmt::Formatter<W>) -> fmt::Result {
        let Stopped { after, refusal } = self;
        write!(f, "{refusal}, after {after} requests")
    }
}

impl Error for Stopped {}
