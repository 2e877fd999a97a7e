// The summary of a day as text, or why there is none.
ghost use Rattle.std.specs.Prelude.{◌≡◌, true, is_ok, IfOk, string_bytes};
ghost use Rattle.std.specs.Result.{result_err};
ghost use Rattle.summary.specs.Counted.{Says};
ghost use Rattle.closing.specs.Summed.{no_summary, Summed};

use crate::requests::Requests;
use lru_cache::{Capacity, Refusal};
use std::fmt;
use summary::Summary;

// What the day comes to with k places.
fn summed(requests: Requests<'_>, k: usize) -> Result<Summary, Refusal>
    ensures refused { result_err result ≡ no_summary requests.entry.kept.now requests.entry.total k }
    ensures says { IfOk result (λ s. Says requests.entry.kept.now k s) }
{
    let capacity = Capacity::new(k).ok_or(Refusal::NoCache)?;
    let summary = summary::summarize(requests.kept, capacity.places)?;
    requests.whole()?;
    Ok(summary)
}

// Adds the paragraph to the text, or the line that says why there is none.
pub fn tell_summary(requests: Requests<'_>, k: usize, text: &mut String) -> fmt::Result
    ensures lines { is_ok result ≡ true → Summed requests.entry.kept.now requests.entry.total k (string_bytes text.old) (string_bytes text.new) }
{
    match summed(requests, k) {
        Ok(summary) => summary::tell(summary, text),
        Err(refusal) => {
            writeln!(text, "{refusal}")?;
            Ok(())
        }
    }
}
