// Amounts in words.
ghost use Rattle.std.specs.Prelude.{Some};
ghost use Rattle.summary.specs.Said.{amount_bytes, hundredths_bytes, bound_bytes};

use crate::summaries::Summary;
use std::fmt;

// So many of something.
#[derive(Clone, Copy, Debug, PartialEq, Eq)]
pub(crate) enum Amount {
    Requests(u64),
    Pages(u64),
    Places(u64),
    // so many times as many as somebody else
    Times(u64),
}

impl fmt::Display for Amount {
    ghost output = { λ a. Some (amount_bytes a) };

    fn fmt<W: fmt::Write>(&self, f: &mut fmt::Formatter<W>) -> fmt::Result {
        match self {
            Amount::Requests(1) => write!(f, "1 request"),
            Amount::Requests(n) => write!(f, "{n} requests"),
            Amount::Pages(1) => write!(f, "1 page"),
            Amount::Pages(n) => write!(f, "{n} different pages"),
            Amount::Places(1) => write!(f, "1 place"),
            Amount::Places(n) => write!(f, "{n} places"),
            Amount::Times(1) => write!(f, "as many"),
            Amount::Times(n) => write!(f, "{n} times as many"),
        }
    }
}

// A number of hundredths as a decimal.
#[derive(Clone, Copy, Debug, PartialEq, Eq)]
pub(crate) struct Hundredths(pub(crate) u64);

impl fmt::Display for Hundredths {
    ghost output = { λ h. Some (hundredths_bytes h.0) };

    fn fmt<W: fmt::Write>(&self, f: &mut fmt::Formatter<W>) -> fmt::Result {
        write!(f, "{}.{:02}", self.0 / 100, self.0 % 100)
    }
}

// The promise that is tightest, in numbers.
#[derive(Clone, Copy, Debug, PartialEq, Eq)]
pub(crate) struct Bound(pub(crate) Summary);

impl fmt::Display for Bound {
    ghost output = { λ b. Some (bound_bytes b.0) };

    fn fmt<W: fmt::Write>(&self, f: &mut fmt::Formatter<W>) -> fmt::Result {
        let Summary {
            places,
            tight,
            house,
            against,
            ..
        } = self.0;
        write!(
            f,
            "({places} - {tight} + 1) x {house} <= {places} x {against}"
        )
    }
}
