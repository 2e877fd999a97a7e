// A text read piece by piece, so that one of any length is read in the same memory.
ghost use Rattle.std.specs.Prelude.{◌≡◌, ◌≤◌, min, ◌++◌, length, take, drop};
ghost use Rattle.text.specs.Texts.{begin, pages_from, after};
ghost use Rattle.text.specs.Readers.{state_of};

use crate::messages::TOLD;
use arrayvec::ArrayVec;

// How many bytes of a word are kept, to tell one that is no page: one more than are told.
const KEPT: usize = TOLD + 1;

// What is read.
#[derive(Clone, Copy, Debug, PartialEq, Eq)]
pub(crate) enum Mode {
    // words, each of which names a page
    Words,
    // a comment, up to the end of the line
    Comment,
    // nothing more: a word ended that is no page
    Bad,
}

#[derive(Debug, Drop)]
pub struct Reader {
    // the line that is read, from 1
    pub(crate) line: u64,
    pub(crate) mode: Mode,
    // the first bytes of the word that was begun, and the page that all its bytes are
    pub(crate) word: ArrayVec<u8, KEPT>,
    pub(crate) page: Option<u32>,
}

impl Reader {
    // Before the first byte of a text.
    pub fn new() -> Reader
        ensures value { state_of result ≡ begin }
    {
        Reader {
            line: 1,
            mode: Mode::Words,
            word: ArrayVec::new(),
            page: Some(0),
        }
    }

    // Reads as many bytes as there are places for pages, writes the pages that they name to the front, and says how many.
    #[tactic(auto, using(std::proofs::lemmas::List::take_min), unfolding(crate::specs::Texts::pages_from, crate::specs::Texts::after))]
    pub fn read(&mut self, bytes: &[u8], pages: &mut [u64]) -> usize
        ensures value { result ≡ length (pages_from (state_of self.old) (take (length pages.old) bytes.now)) }
        ensures bound { result ≤ min (length bytes.now) (length pages.old) }
        ensures written { pages.new ≡ pages_from (state_of self.old) (take (length pages.old) bytes.now) ++ drop result pages.old }
        ensures after { state_of self.new ≡ after (state_of self.old) (take (length pages.old) bytes.now) }
    {
        let piece = &bytes[..pages.len().min(bytes.len())];
        // The caller lends the row, and fewer pages than bytes are written, so they are counted.
        let mut count = 0;
        for &byte in piece {
            if let Some(page) = self.step(byte) {
                pages[count] = page;
                count += 1;
            }
        }
        count
    }
}
