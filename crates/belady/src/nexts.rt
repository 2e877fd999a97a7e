// When the page of each request is requested next.
ghost use Rattle.std.specs.Prelude.{◌≡◌, ◌<◌, ◌≤◌, length, drop};
ghost use Rattle.belady.specs.Ahead.{next_at, Nexts};

use rows::find;

// Where the next request for the page of the i-th stands in a trace. Where there is none it is the trace's length, no Option: keys are made
// of it and compared as numbers, and never is later than any request.
fn next_at(trace: &[u64], i: usize) -> usize
    requires within { i < length trace.now }
    ensures value { result ≡ next_at trace.now i }
    ensures bound { result ≤ length trace.now }
{
    find(&trace[i + 1..], trace[i]).map_or(trace.len(), |after| i + 1 + after)
}

// Writes for each request of a trace where the next one for its page stands.
pub fn next_uses(trace: &[u64], next: &mut [u64])
    requires room { length trace.now ≤ length next.old }
    ensures value { Nexts trace.now next.new }
    ensures beyond { drop (length trace.now) next.new ≡ drop (length trace.now) next.old }
{
    for (i, at) in next[..trace.len()].iter_mut().enumerate() {
        *at = next_at(trace, i) as u64;
    }
}
