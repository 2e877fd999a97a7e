// The report of a trace.
ghost use Rattle.std.specs.Prelude.{◌≡◌, length, MatchOption};
ghost use Rattle.curve.specs.Refused.{refusal};
ghost use Rattle.ffi.specs.Reports.{Written, Unwritten};

use crate::packs::{count, refuse};

// Writes what LRU fetches with 1, 2 .. m places, and then the fewest fetches anybody could make. Counts the capacities.
#[unsafe(no_mangle)]
pub extern "C" fn dq_report(trace: &[u64], m: usize, row: &mut [u64]) -> u64
    ensures cases { MatchOption (refusal trace.now m (length row.old)) (Written trace.now m row.old result row.new) (λ e. Unwritten e row.old result row.new) }
{
    belady::report(trace, m, row).map_or_else(refuse, |()| count(m as u64))
}
