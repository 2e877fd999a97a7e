// The chains that find the slot of a page: one for each home, through the slots whose pages have it.
ghost use Rattle.std.specs.Prelude.{◌≡◌, ℕ, ◌+◌, ◌*◌, ◌<◌, ◌≤◌, length, drop, MatchOption, ◌≢◌, slice_index};
ghost use Rattle.recency.specs.Hash.{home, mixed, spread};
ghost use Rattle.recency.specs.Row.{count, held, behind, lead, lead_at, door, forgotten, entered};
ghost use Rattle.recency.specs.Sound.{Sound};

use crate::layout::Capacity;

// 2^64 over the golden ratio.
const GOLDEN: u64 = 0x9e37_79b9_7f4a_7c15;

// A number's bits, mixed by two multiplications: with one there are strides of numbers that fall together.
#[tactic(auto, unfolding(crate::specs::Hash::mixed))]
fn mix(n: u64) -> u64
    ensures value { result ≡ mixed n }
{
    let product = n.wrapping_mul(GOLDEN);
    (product ^ (product >> 32)).wrapping_mul(0xd6e8_feb8_6659_fd93)
}

// Pages of one block of 4,096 are spread evenly, from a place that is the block's own.
#[tactic(auto, unfolding(crate::specs::Hash::spread))]
fn spread_of(page: u64) -> u64
    ensures value { result ≡ spread page }
{
    (page % 4096)
        .wrapping_mul(GOLDEN)
        .wrapping_add(mix(page / 4096))
}

// Where the chain of a page begins.
#[tactic(auto, unfolding(crate::specs::Hash::home))]
pub(crate) fn door_of(k: Capacity, page: u64) -> usize
    ensures value { result ≡ door k.places (home k.places page) }
    ensures bound { result < 9 * k.places + 5 }
{
    5 * k.places + 5 + ((spread_of(page) >> 32) * (4 * k.places as u64) >> 32) as usize
}

// The slot that holds a page. The page stands in slot 0 too, so that a search ends at every chain's end with no test of its own.
pub(crate) fn seek(row: &[u64], k: Capacity, page: u64) -> Option<usize>
    requires sound { Sound k.places row.now }
    requires sought { held row.now 0 ≡ page }
    ensures cases { MatchOption result ((s : ℕ) → 1 ≤ s → s ≤ count row.now → held row.now s ≢ page) (λ s. (1 ≤ s) × (s ≤ count row.now) × (held row.now s ≡ page)) }
{
    let mut slot = row[door_of(k, page)] as usize;
    while row[5 * slot + 2] != page {
        slot = row[5 * slot + 3] as usize;
    }
    if slot == 0 { None } else { Some(slot) }
}

// The same for a row that is only looked at, with a test for the chain's end.
pub(crate) fn probe(row: &[u64], k: Capacity, page: u64) -> Option<usize>
    requires sound { Sound k.places row.now }
    ensures cases { MatchOption result ((s : ℕ) → 1 ≤ s → s ≤ count row.now → held row.now s ≢ page) (λ s. (1 ≤ s) × (s ≤ count row.now) × (held row.now s ≡ page)) }
{
    let mut slot = row[door_of(k, page)] as usize;
    while slot != 0 {
        if row[5 * slot + 2] == page {
            return Some(slot);
        }
        slot = row[5 * slot + 3] as usize;
    }
    None
}

// Takes a slot out of its chain: what led to it leads to the one behind it.
pub(crate) fn forget(row: &mut [u64], slot: usize)
    requires slot_within { lead_at slot < length row.old }
    requires lead_within { lead row.old slot < length row.old }
    requires behind_within { lead_at (behind row.old slot) < length row.old }
    ensures after { row.new ≡ forgotten row.old slot }
{
    let behind = row[5 * slot + 3];
    let lead = row[5 * slot + 4];
    row[lead as usize] = behind;
    row[5 * behind as usize + 4] = lead;
}

// Puts a slot in front of the chain that begins at a door.
pub(crate) fn enter(row: &mut [u64], door: usize, slot: usize)
    requires slot_within { lead_at slot < length row.old }
    requires door_within { door < length row.old }
    requires first_within { lead_at (slice_index row.old door) < length row.old }
    ensures after { row.new ≡ entered row.old door slot }
{
    let behind = row[door];
    row[5 * slot + 3] = behind;
    row[5 * slot + 4] = door as u64;
    row[door] = slot as u64;
    row[5 * behind as usize + 4] = (5 * slot + 3) as u64;
}

// Every chain leads nowhere.
pub(crate) fn wipe(row: &mut [u64], k: Capacity)
    requires long { 9 * k.places + 5 ≤ length row.old }
    ensures empty { (h : ℕ) → h < 4 * k.places → slice_index row.new (door k.places h) ≡ 0 }
    ensures same { (i : ℕ) → i < 5 * k.places + 5 → slice_index row.new i ≡ slice_index row.old i }
    ensures len { length row.new ≡ length row.old }
    ensures beyond { drop (9 * k.places + 5) row.new ≡ drop (9 * k.places + 5) row.old }
{
    row[5 * k.places + 5..9 * k.places + 5].fill(0);
}
