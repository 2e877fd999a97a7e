// A day from text to bytes and back: `pack` and `unpack`, with the header as text, and the theorem that the way there and back gives the same
// day. `pack_text` and `unpack_bytes` do it piece by piece. A header's bytes are `<[u8; 4]>::from(header)` of crate `trace`.
#![tactic(auto)]

mod headers;
mod packs;
mod pieces;
mod prints;
mod stands;

pub use headers::header_with;
pub use packs::pack;
pub use pieces::{pack_text, unpack_bytes};
pub use prints::{unpack, unpack_header};
pub use stands::there_and_back_stands;
