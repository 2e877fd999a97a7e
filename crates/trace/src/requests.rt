// Requests from bytes.
ghost use Rattle.std.specs.Prelude.{◌≡◌, ◌/◌, min, ◌++◌, length, take, drop};
ghost use Rattle.trace.specs.Requests.{requests_in};

// Writes the pages that the bytes request to the front of `out`, as many as are whole and have room, and says how many.
pub fn decode(bytes: &[u8], out: &mut [u64]) -> usize
    ensures value { result ≡ min (length bytes.now / 4) (length out.old) }
    ensures after { out.new ≡ take result (requests_in bytes.now) ++ drop result out.old }
{
    let (groups, _) = bytes.as_chunks::<4>();
    let count = groups.len().min(out.len());
    // No `zip` with the groups: it was tried, and a proof then knows how long `out` is, and not what it holds.
    for (i, page) in out[..count].iter_mut().enumerate() {
        *page = u64::from(u32::from_le_bytes(groups[i]));
    }
    count
}
