// The ring of slots in the order of use. Slot 0 stands at both its ends, so that no slot is a special case.
ghost use Rattle.std.specs.Prelude.{◌≡◌, ◌+◌, ◌*◌, ◌<◌, ◌≤◌, length};
ghost use Rattle.recency.specs.Row.{next, unlinked, pushed};
ghost use Rattle.recency.specs.Sound.{Within};

// Takes a slot out: its neighbours are linked to each other.
pub(crate) fn unlink(row: &mut [u64], slot: usize)
    requires linked { Within row.old slot }
    ensures after { row.new ≡ unlinked row.old slot }
{
    let after = row[5 * slot];
    let before = row[5 * slot + 1];
    row[5 * before as usize] = after;
    row[5 * after as usize + 1] = before;
}

// Puts a slot in front, as the one used last.
pub(crate) fn push(row: &mut [u64], slot: usize)
    requires slot_within { 5 * slot + 4 < length row.old }
    requires head_within { 5 * next row.old 0 + 4 < length row.old }
    ensures after { row.new ≡ pushed row.old slot }
{
    let head = row[0];
    row[5 * slot] = head;
    row[5 * slot + 1] = 0;
    row[5 * head as usize + 1] = slot as u64;
    row[0] = slot as u64;
}
