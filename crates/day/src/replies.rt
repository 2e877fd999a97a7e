// What the requests of a trace find, and their lines.
ghost use Rattle.std.specs.Prelude.{◌≡◌, ◌≤◌, true, ◌++◌, map, length, take, replicate, is_ok, Ok, Err, None, string_bytes};
ghost use Rattle.lru_cache.specs.Rows.{capacity, cached, first_wide};
ghost use Rattle.day.specs.Said.{Ready, answered, answers, cache_at_end, served, lines_of};

use lru_cache::{Outcome, Refusal};
use std::fmt;
use trace::Line;

// Plays a trace, and writes what its requests found to the front; or says why the rows turn it away whole, which is then the reply to each.
pub(crate) fn answer(
    cache: &mut [u64],
    index: &mut [u64],
    trace: &[u64],
    found: &mut [Outcome],
) -> Result<(), Refusal>
    requires ready { Ready cache.old (length index.old) }
    requires small { first_wide trace.now ≡ None }
    requires room { length trace.now ≤ length found.old }
    ensures ready { Ready cache.new (length index.new) }
    ensures capacity { capacity cache.new ≡ capacity cache.old }
    ensures after { cached cache.new ≡ cache_at_end (capacity cache.old) (cached cache.old) trace.now }
    ensures replied { answered result (length trace.now) found.new ≡ answers (capacity cache.old) (cached cache.old) trace.now }
{
    lru_cache::play(cache, index, trace, found)?;
    Ok(())
}

// What is said of a request that was served.
fn line(page: u64, outcome: Outcome) -> Line
    ensures value { result ≡ served page outcome }
{
    match outcome {
        Outcome::Hit => Line::Here(page),
        Outcome::Filled => Line::Fetched(page),
        Outcome::Evicted(gone) => Line::FetchedFor { page, gone },
    }
}

// Adds the lines of a trace's requests to the text. No `Display`: a trace with what was found would need a type of its own, for one call.
pub(crate) fn tell(trace: &[u64], found: &[Outcome], text: &mut String) -> fmt::Result
    ensures lines { is_ok result ≡ true → string_bytes text.new ≡ string_bytes text.old ++ lines_of trace.now (map Ok found.now) }
{
    for (&page, &outcome) in trace.iter().zip(found) {
        writeln!(text, "{}", line(page, outcome))?;
    }
    Ok(())
}

// The same where each request is turned away.
pub(crate) fn tell_refused(trace: &[u64], refusal: Refusal, text: &mut String) -> fmt::Result
    ensures lines { is_ok result ≡ true → string_bytes text.new ≡ string_bytes text.old ++ lines_of trace.now (replicate (length trace.now) (Err refusal)) }
{
    for _ in trace {
        writeln!(text, "{refusal}")?;
    }
    Ok(())
}
