// Rows that are looked through, shifted and written.
#![tactic(auto)]

ghost use Rattle.std.specs.Prelude.{◌≡◌, ◌+◌, ◌<◌, true, false, ◌∷◌, ◌++◌, length, take, drop, MatchOption, slice_set};
ghost use Rattle.std.specs.List.{remove};
ghost use Rattle.paging.specs.Lists.{has, place};

// Whether a page is one of these.
#[tactic(auto, using(crate::proofs::Looked::has_any))]
pub fn holds(pages: &[u64], page: u64) -> bool
    ensures value { result ≡ has pages.now page }
{
    pages.contains(&page)
}

// How many stand before the first such page, where it is there. Not copied into its callers: there it has taken 6 instructions in place of
// 5 for each number that is passed, and a report is held against one in C (docs/PERFORMANCE.md).
#[inline(never)]
pub fn find(row: &[u64], page: u64) -> Option<usize>
    ensures value { MatchOption result (has row.now page ≡ false) (λ at. (has row.now page ≡ true) × (at ≡ place page row.now) × (at < length row.now)) }
{
    row.iter().position(|&x| x == page)
}

// Puts a number in front, in the place of the one that stands at `at`.
pub fn put_first(row: &mut [u64], at: usize, value: u64)
    requires within { at < length row.old }
    ensures after { row.new ≡ value ∷ remove row.old at }
    ensures shifted { row.new ≡ value ∷ (take at row.old ++ drop (at + 1) row.old) }
{
    row[..=at].rotate_right(1);
    row[0] = value;
}

// Writes a value, where there is a place for it. By number: of what is written through `get_mut` a proof knows the length alone.
pub fn write_at<T: Copy>(row: &mut [T], i: usize, value: T)
    ensures after { row.new ≡ slice_set row.old i value }
{
    if i < row.len() {
        row[i] = value;
    }
}
