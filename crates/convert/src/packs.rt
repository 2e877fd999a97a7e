// A day in bytes: four for each page, low byte first.
ghost use Rattle.std.specs.Prelude.{◌≡◌, ◌+◌, ◌*◌, ◌/◌, ◌≤◌, min, ◌++◌, length, take, drop};
ghost use Rattle.convert.specs.Days.{page_bytes, bytes_of};
ghost use Rattle.convert.specs.Claims.{TextThere};

// Writes a page to the four places from `at` on.
fn put_page(out: &mut [u8], at: usize, page: u64)
    requires room { at + 4 ≤ length out.old }
    ensures after { out.new ≡ take at out.old ++ (page_bytes page ++ drop (at + 4) out.old) }
{
    out[at..at + 4].copy_from_slice(&page.to_le_bytes()[..4]);
}

// Writes the bytes of as many pages as have room to the front, and says how many bytes.
#[tactic(auto, using(crate::proofs::Backs::text_there))]
pub fn pack(pages: &[u64], out: &mut [u8]) -> usize
    ensures value { result ≡ 4 * min (length pages.now) (length out.old / 4) }
    ensures after { out.new ≡ take result (bytes_of pages.now) ++ drop result out.old }
    ensures back { TextThere }
{
    let packed = &pages[..pages.len().min(out.len() / 4)];
    // No `chunks_exact_mut`: after it a proof knows how long `out` is, and not what it holds.
    for (i, &page) in packed.iter().enumerate() {
        put_page(out, 4 * i, page);
    }
    4 * packed.len()
}
