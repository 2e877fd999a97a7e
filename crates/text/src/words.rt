// A word of the text, byte by byte.
ghost use Rattle.std.specs.Prelude.{◌≡◌};
ghost use Rattle.text.specs.Texts.{with_digit, number_from, ends_mark, with_byte, page_of, end_word, page_at, step};
ghost use Rattle.text.specs.Readers.{state_of};

use crate::readers::{Mode, Reader};

// The number with one byte more, where that is a page.
fn with_digit(number: u32, byte: u8) -> Option<u32>
    ensures value { result ≡ with_digit number byte }
{
    match byte {
        b'0'..=b'9' => u32::try_from(10 * u64::from(number) + u64::from(byte - b'0')).ok(),
        _ => None,
    }
}

// The number that a word is, where it is a page. Digit by digit and no `parse`, which takes a sign (`+5`) too and asks for a `&str`. A word of no
// bytes adds up to 0: who reads one asks for a byte first, as `end_word` here and crate `options` do.
pub fn number(word: &[u8]) -> Option<u64>
    ensures value { result ≡ number_from 0 word.now }
{
    let mut number = 0;
    for &byte in word {
        number = with_digit(number, byte)?;
    }
    Some(number.into())
}

// Whether the byte ends the mark that some programs write in front of a text in UTF-8, three bytes of which these are the first.
fn ends_mark(word: &[u8], byte: u8) -> bool
    ensures value { result ≡ ends_mark word.now byte }
{
    // The byte is asked for first: few texts have another word with one.
    byte == 0xbf && matches!(word, [0xef, 0xbb])
}

impl Reader {
    // The word has one byte more. The mark that some programs write in front of a text in UTF-8 is no part of it.
    #[tactic(auto, using(crate::proofs::Told::told_more))]
    fn put(&mut self, byte: u8)
        ensures after { state_of self.new ≡ with_byte (state_of self.old) byte }
    {
        if ends_mark(self.word.as_slice(), byte) {
            self.word.clear();
            self.page = Some(0);
            return;
        }
        self.page = self.page.and_then(|number| with_digit(number, byte));
        // Where the word is as long as what is kept of it, its further bytes are not.
        let _ = self.word.try_push(byte);
    }

    // The word ends, where there is one, and the text goes on in that line.
    fn end_word(&mut self, line: u64, mode: Mode) -> Option<u64>
        ensures value { result ≡ page_of (state_of self.old) }
        ensures after { state_of self.new ≡ end_word (state_of self.old) line mode }
    {
        let page = match (self.word.is_empty(), self.page) {
            (true, _) => None,
            (false, None) => {
                self.mode = Mode::Bad;
                return None;
            }
            (false, page) => page,
        };
        self.line = line;
        self.mode = mode;
        self.word.clear();
        self.page = Some(0);
        page.map(u64::from)
    }

    // One byte more, and the page that it ends.
    pub(crate) fn step(&mut self, byte: u8) -> Option<u64>
        ensures value { result ≡ page_at (state_of self.old) byte }
        ensures after { state_of self.new ≡ step (state_of self.old) byte }
    {
        match (self.mode, byte) {
            (Mode::Bad, _) => None,
            (_, b'\n') => self.end_word(self.line.saturating_add(1), Mode::Words),
            (Mode::Comment, _) => None,
            (Mode::Words, b'#') => self.end_word(self.line, Mode::Comment),
            (Mode::Words, b' ' | b'\t' | b'\r') => self.end_word(self.line, Mode::Words),
            (Mode::Words, _) => {
                self.put(byte);
                None
            }
        }
    }
}
