// Pages found by number and linked from the most to the least recently used, in one lent row of numbers.
//
// A row for k pages has slots 1 to k, linked in a ring through slot 0 in the order of use, and 4 * k chains that find the slot of a page: a
// page is in the one chain that its hash names. All links are numbers in one row, since it is lent, by C too, and the library has no heap.
// A request takes its slot out of both, where it is in them, and puts it in front of both, so a chain has its slots in the order of the ring.
// `clear` makes an empty row, `request` asks for a page, `fill` brings one in that is known to be new, `contains` only looks, and `list`
// tells the pages in order. What a row stands for is `pages` of specs/Row.antt; that it is well formed, `Sound` of specs/Sound.antt. It stands in the
// contracts, and in no struct over the row: rows are lent anew at each call, by C too, and of what is written through a struct over a lent
// row nothing is known once the struct is let go. A struct that owns its row can say as a test that it is well formed, as in `policies`.
#![tactic(auto)]

mod chains;
mod layout;
mod ring;
mod uses;

pub use layout::{Capacity, LARGEST_ROW, MAX_CAPACITY, SMALL_CAPACITY, SMALL_ROW, row_len};
pub use uses::{Outcome, clear, contains, fill, list, request};
