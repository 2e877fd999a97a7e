// The policies that a challenge can be against, their numbers and their names.
ghost use Rattle.std.specs.Prelude.{◌≡◌, Some, codes};
ghost use Rattle.std.specs.Result.{result_ok};
ghost use Rattle.trace.specs.Kinds.{Decodes, number_of, unknown_bytes, policy_of};

use std::error::Error;
use std::fmt;
use std::str::FromStr;

#[derive(Clone, Copy, Debug, PartialEq, Eq)]
pub enum PolicyKind {
    // the least recently used page goes
    Lru = 0,
    // first come, first gone
    Fifo = 1,
    // the least requested page goes
    LeastRequested = 2,
}

impl PolicyKind {
    // By their numbers.
    pub const ALL: [PolicyKind; 3] = [
        PolicyKind::Lru,
        PolicyKind::Fifo,
        PolicyKind::LeastRequested,
    ];
}

// A number that no policy has.
#[derive(Clone, Copy, Debug, PartialEq, Eq)]
pub struct UnknownPolicy(pub u8);

impl TryFrom<u8> for PolicyKind {
    type Error = UnknownPolicy;

    ghost try_from_gives = { Decodes };

    fn try_from(number: u8) -> Result<Self, UnknownPolicy> {
        match number {
            0 => Ok(PolicyKind::Lru),
            1 => Ok(PolicyKind::Fifo),
            2 => Ok(PolicyKind::LeastRequested),
            _ => Err(UnknownPolicy(number)),
        }
    }
}

impl From<PolicyKind> for u8 {
    ghost from_gives = { λ kind number. number ≡ number_of kind };

    fn from(kind: PolicyKind) -> u8 {
        kind as u8
    }
}

impl fmt::Display for UnknownPolicy {
    ghost output = { λ e. Some (unknown_bytes e) };

    fn fmt<W: fmt::Write>(&self, f: &mut fmt::Formatter<W>) -> fmt::Result {
        write!(f, "no policy has number {}", self.0)
    }
}

impl Error for UnknownPolicy {}

// A word that names no policy.
#[derive(Clone, Copy, Debug, PartialEq, Eq)]
pub struct UnknownName;

impl FromStr for PolicyKind {
    type Err = UnknownName;

    ghost from_str_gives = { λ word result. result_ok result ≡ policy_of word };

    fn from_str(word: &str) -> Result<Self, UnknownName> {
        match word {
            "lru" => Ok(PolicyKind::Lru),
            "fifo" => Ok(PolicyKind::Fifo),
            "lfu" => Ok(PolicyKind::LeastRequested),
            _ => Err(UnknownName),
        }
    }
}

impl fmt::Display for UnknownName {
    ghost output = { λ _. Some (codes "no policy has that name") };

    fn fmt<W: fmt::Write>(&self, f: &mut fmt::Formatter<W>) -> fmt::Result {
        f.write_str("no policy has that name")
    }
}

impl Error for UnknownName {}
