// A summary as a paragraph of text, one sentence to a line.
ghost use Rattle.std.specs.Prelude.{◌≡◌, true, ◌++◌, is_ok, Some, string_bytes};
ghost use Rattle.summary.specs.Said.{fetched_bytes, paragraph};

use crate::amounts::{Amount, Bound, Hundredths};
use crate::summaries::Summary;
use std::fmt;

// What LRU fetched beside the fewest that anybody could have, as the end of a sentence.
#[derive(Clone, Copy, Debug, PartialEq, Eq)]
pub(crate) struct Fetched(pub(crate) Summary);

impl fmt::Display for Fetched {
    ghost output = { λ s. Some (fetched_bytes s.0) };

    fn fmt<W: fmt::Write>(&self, f: &mut fmt::Formatter<W>) -> fmt::Result {
        let Summary {
            house,
            known,
            hundredths,
            ..
        } = self.0;
        write!(
            f,
            "{house}, and nobody could have fetched fewer than {known}: at most {} times as many.",
            Hundredths(hundredths)
        )
    }
}

impl fmt::Display for Summary {
    ghost output = { λ s. Some (paragraph s) };

    #[tactic(auto, unfolding(crate::specs::Said::paragraph))]
    fn fmt<W: fmt::Write>(&self, f: &mut fmt::Formatter<W>) -> fmt::Result {
        let s = *self;
        if s.requests == 0 {
            return writeln!(f, "There were no requests, and nothing was fetched.");
        }
        let requests = Amount::Requests(s.requests);
        let pages = Amount::Pages(s.different);
        let places = Amount::Places(s.places);
        let fetched = Fetched(s);
        let times = Amount::Times(s.places);
        let tight = Amount::Places(s.tight);
        let bound = Bound(s);
        let needed = Amount::Places(s.needed);
        let (known, allowed) = (s.known, s.allowed);
        writeln!(f, "{requests} for {pages}.")?;
        writeln!(f, "With {places} the house fetched {fetched}")?;
        writeln!(f, "Promised: at most {times} as anybody with {places}.")?;
        writeln!(
            f,
            "Tightest for this day against {tight}: {bound}, so at most {allowed}."
        )?;
        writeln!(f, "To fetch no more than {known} the house needs {needed}.")
    }
}

// Adds the paragraph to the text.
pub fn tell(s: Summary, text: &mut String) -> fmt::Result
    ensures lines { is_ok result ≡ true → string_bytes text.new ≡ string_bytes text.old ++ paragraph s }
{
    write!(text, "{s}")?;
    Ok(())
}
