// Pieces of a day, from text to bytes and from bytes to text.
ghost use Rattle.std.specs.Prelude.{◌≡◌, ◌*◌, ◌/◌, ◌≤◌, min, true, ◌++◌, length, take, drop, is_ok, string_bytes};
ghost use Rattle.trace.specs.Requests.{requests_in};
ghost use Rattle.text.specs.Texts.{pages_from, after};
ghost use Rattle.text.specs.Readers.{state_of};
ghost use Rattle.convert.specs.Days.{bytes_of, text_of};

use crate::packs::pack;
use crate::prints::unpack;
use std::fmt;
use text::Reader;

// How many pages are handled at once at most, in fixed memory. Crate `day` serves as many, and has its own number: convert stands on no day.
const PAGES: usize = 16384;

// Reads as much of a text as there is room for, at most 16,384 bytes, writes the pages that it names in bytes to the front, and says how
// many bytes.
pub fn pack_text(reader: &mut Reader, text: &[u8], out: &mut [u8]) -> usize
    ensures value { result ≡ 4 * length (pages_from (state_of reader.old) (take (min (length out.old / 4) 16384) text.now)) }
    ensures bound { result ≤ length out.old }
    ensures written { out.new ≡ bytes_of (pages_from (state_of reader.old) (take (min (length out.old / 4) 16384) text.now)) ++ drop result out.old }
    ensures after { state_of reader.new ≡ after (state_of reader.old) (take (min (length out.old / 4) 16384) text.now) }
{
    let mut pages = [0; PAGES];
    let room = &mut pages[..PAGES.min(out.len() / 4)];
    let count = reader.read(text, room);
    pack(&room[..count], out)
}

// Adds the lines of the pages that bytes request to the text, of the first 16,384.
pub fn unpack_bytes(bytes: &[u8], text: &mut String) -> fmt::Result
    ensures lines { is_ok result ≡ true → string_bytes text.new ≡ string_bytes text.old ++ text_of (take 16384 (requests_in bytes.now)) }
{
    let mut pages = [0; PAGES];
    let count = trace::decode(bytes, &mut pages);
    unpack(&pages[..count], text)
}
