// Traces of several kinds.
ghost use Rattle.std.specs.Prelude.{◌≡◌, ◌<◌, Some};
ghost use Rattle.traces.specs.Kind.{IsMade, next_page};

use crate::random::Random;
use std::fmt;

#[derive(Clone, Copy, Debug, PartialEq, Eq)]
pub enum Kind {
    AnyPage,
    // At most six pages after the one before.
    NearTheLast,
    // One after the other, over and over.
    InTurn,
}

// All of them.
pub(crate) const KINDS: [Kind; 3] = [Kind::AnyPage, Kind::NearTheLast, Kind::InTurn];

impl fmt::Display for Kind {
    ghost use Rattle.traces.specs.Kind.{name};

    ghost output = { λ kind. Some (name kind) };

    fn fmt<W: fmt::Write>(&self, f: &mut fmt::Formatter<W>) -> fmt::Result {
        f.write_str(match self {
            Kind::AnyPage => "any page",
            Kind::NearTheLast => "near the last",
            Kind::InTurn => "in turn",
        })
    }
}

impl Kind {
    // The page after another, where the generator gives this number.
    fn next(self, last: u64, pages: u64, number: u64) -> u64
        requires last { last < pages }
        ensures below { result < pages }
        ensures next { result ≡ next_page self pages last number }
    {
        match self {
            Kind::AnyPage => number % pages,
            // it wraps, since the last page may be near 2^64
            Kind::NearTheLast => last.wrapping_add(number % 7) % pages,
            Kind::InTurn => (last + 1) % pages,
        }
    }

    // Makes a trace over so many pages. One over no pages stays as it is.
    pub fn fill(self, trace: &mut [u64], pages: u64)
        ensures none { pages ≡ 0 → trace.new ≡ trace.old }
        ensures made { 0 < pages → IsMade self pages trace.new }
    {
        if pages == 0 {
            return;
        }
        let mut random = Random::new(pages);
        let mut last = 0;
        for page in trace.iter_mut() {
            last = self.next(last, pages, random.draw());
            *page = last;
        }
    }
}
