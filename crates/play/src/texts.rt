// A trace as text, read piece by piece.
ghost use Rattle.std.specs.Prelude.{◌≡◌, true, false, take, is_ok, IfErr};
ghost use Rattle.text.specs.Texts.{begin, pages_from, after, is_bad};
ghost use Rattle.text.specs.Readers.{state_of};
ghost use Rattle.convert.specs.Days.{bytes_of};
ghost use Rattle.play.specs.Faults.{says_word};

use crate::faults::Fault;
use crate::pieces::read_some;
use crate::sources::Source;
use crate::steps::Step;
use day::{PIECE, Piece};
use std::alloc::Global;
use std::io::Read;
use text::Reader;
use trace::Header;

// How much of a text is read at once: each byte can end a page, which has four.
const TEXT: usize = PIECE / 4;

// What is read of a trace as text, in fixed memory.
#[derive(Drop)]
pub(crate) struct Texts {
    heap: Global,
    reader: Reader,
    // the pages of a piece in bytes
    buf: [u8; PIECE],
}

impl Texts {
    pub(crate) fn new(heap: Global) -> Texts
        ensures begun { state_of result.reader ≡ begin }
    {
        Texts {
            heap,
            reader: Reader::new(),
            buf: [0; PIECE],
        }
    }

    // A word that is no page is a fault.
    fn checked(&self) -> Result<(), Fault>
        ensures good { is_ok result ≡ true → is_bad (state_of self.now.reader) ≡ false }
        ensures word { IfErr result (says_word (state_of self.now.reader)) }
    {
        match self.reader.bad() {
            Some(word) => Err(Fault::Word(word.to_string(self.heap)?)),
            None => Ok(()),
        }
    }

    // Takes the pages that a piece of the text names, of its first 16,384 bytes.
    fn take_in<S: Step>(&mut self, piece: &[u8], step: &mut S) -> Result<(), Fault>
        ensures went { S.goes step.old (bytes_of (pages_from (state_of self.old.reader) (take 16384 piece.now))) step.new }
        ensures after { is_ok result ≡ true → state_of self.new.reader ≡ after (state_of self.old.reader) (take 16384 piece.now) }
        ensures good { is_ok result ≡ true → is_bad (state_of self.new.reader) ≡ false }
    {
        let n = convert::pack_text(&mut self.reader, piece, &mut self.buf);
        step.take(Piece {
            bytes: &self.buf[..n],
        })?;
        self.checked()
    }
}

impl Source for Texts {
    // A text has none.
    fn header<R: Read>(&mut self, _input: &mut R) -> Result<Option<Header>, Fault> {
        Ok(None)
    }

    fn take_some<R: Read, S: Step>(&mut self, input: &mut R, step: &mut S) -> Result<usize, Fault> {
        let mut piece = [0u8; TEXT];
        let n = read_some(input, &mut piece)?;
        if n > 0 {
            self.take_in(&piece[..n], step)?;
        }
        Ok(n)
    }

    // The end of the input is read as a line break, since the last line may lack it.
    fn take_end<S: Step>(&mut self, step: &mut S) -> Result<(), Fault>
        ensures whole { is_ok result ≡ true → is_bad (state_of self.new.reader) ≡ false }
    {
        self.take_in(b"\n", step)
    }
}
