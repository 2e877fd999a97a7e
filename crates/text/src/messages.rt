// What is said of a word that is no page.
ghost use Rattle.std.specs.Prelude.{◌≡◌, map, is_some, Some, IfSome};
ghost use Rattle.text.specs.Texts.{is_bad};
ghost use Rattle.text.specs.Messages.{shown, dots, bad_line};
ghost use Rattle.text.specs.Readers.{state_of};

use crate::readers::{Mode, Reader};
use std::error::Error;
use std::fmt;

// How many bytes of a word are told.
pub(crate) const TOLD: usize = 40;

fn shown(byte: u8) -> char
    ensures value { result ≡ shown byte }
{
    match byte {
        b' '..=b'~' => byte.into(),
        _ => '?',
    }
}

// What is told behind so many bytes of a word.
fn dots(length: usize) -> &'static str
    ensures value { result.now ≡ dots length }
{
    if length > TOLD { "..." } else { "" }
}

// Bytes of a word as they are told.
#[derive(Clone, Copy)]
struct Printable<'a>(&'a [u8]);

impl fmt::Display for Printable<'_> {
    ghost output = { λ p. Some (map shown p.0.now) };

    fn fmt<W: fmt::Write>(&self, f: &mut fmt::Formatter<W>) -> fmt::Result {
        for &byte in self.0 {
            f.write_char(shown(byte))?;
        }
        Ok(())
    }
}

// A word that is no page, of which the first 41 bytes are kept, and the line that it is in.
#[derive(Clone, Copy, Debug, PartialEq, Eq)]
pub struct BadWord<'a> {
    pub line: u64,
    pub word: &'a [u8],
}

impl fmt::Display for BadWord<'_> {
    ghost output = { λ bad. Some (bad_line bad.line bad.word.now) };

    fn fmt<W: fmt::Write>(&self, f: &mut fmt::Formatter<W>) -> fmt::Result {
        let BadWord { line, word } = *self;
        let told = Printable(&word[..TOLD.min(word.len())]);
        let more = dots(word.len());
        write!(
            f,
            "{line}: '{told}{more}' is not a page number (0 to 4294967295)"
        )
    }
}

impl Error for BadWord<'_> {}

impl Reader {
    // The word that was begun last and its line, as they are told where it is no page.
    pub fn told(&self) -> BadWord<'_>
        ensures line { result.line ≡ (state_of self.now).line }
        ensures word { result.word.now ≡ (state_of self.now).told }
    {
        BadWord {
            line: self.line,
            word: self.word.as_slice(),
        }
    }

    // The word that ended and is no page, where there is one: nothing more is read then.
    pub fn bad(&self) -> Option<BadWord<'_>>
        ensures some { is_some result ≡ is_bad (state_of self.now) }
        ensures word { IfSome result (λ bad. (bad.line ≡ (state_of self.now).line) × (bad.word.now ≡ (state_of self.now).told)) }
    {
        (self.mode == Mode::Bad).then_some(self.told())
    }
}
