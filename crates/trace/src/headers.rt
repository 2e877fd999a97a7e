// The four bytes before the requests.
ghost use Rattle.std.specs.Prelude.{◌≡◌};
ghost use Rattle.trace.specs.Headers.{header_of, header_bytes};

// The places of a cache where nobody says how many.
pub const PLACES: u16 = 40;

// Numbers that options give too, and public fields that are compared with lengths: so `usize`, and what is above two bytes has no bytes here.
#[derive(Clone, Copy, Debug, PartialEq, Eq)]
pub struct Header {
    // how many places the cache has
    pub capacity: usize,
    // how many capacities the report goes up to
    pub reported: usize,
}

// The header that the bytes begin with, where they are four or more. An `Option`, since how many bytes there are is all that can be wrong, and
// the caller knows it.
pub fn read_header(bytes: &[u8]) -> Option<Header>
    ensures value { result ≡ header_of bytes.now }
{
    let [a, b, c, d, ..] = bytes else {
        return None;
    };
    Some(Header {
        capacity: usize::from(u16::from_le_bytes([*a, *b])),
        reported: usize::from(u16::from_le_bytes([*c, *d])),
    })
}

// Of each number the two low bytes, low byte first: what is above them is dropped.
impl From<Header> for [u8; 4] {
    ghost from_gives = { λ header bytes. bytes ≡ header_bytes header };

    fn from(header: Header) -> [u8; 4] {
        let [a, b, ..] = header.capacity.to_le_bytes();
        let [c, d, ..] = header.reported.to_le_bytes();
        [a, b, c, d]
    }
}
