// A trace in bytes, read piece by piece, so that one of any length is taken in the same memory.
ghost use Rattle.std.specs.Prelude.{◌≡◌, ◌+◌, ◌-◌, ◌/◌, ◌%◌, ◌^◌, ◌<◌, ◌≤◌, min, true, length, take, is_ok, IfOk, IfErr, OnOk};
ghost use Rattle.trace.specs.Requests.{left_over};
ghost use Rattle.play.specs.declared.faults.Fault.TheVariants as fault;

use crate::faults::Fault;
use crate::sources::Source;
use crate::steps::Step;
use day::{PIECE, Piece};
use std::io::Read;
use trace::Header;

// One read.
pub(crate) fn read_some<R: Read>(input: &mut R, buf: &mut [u8]) -> Result<usize, Fault>
    ensures bound { IfOk result (λ n. n ≤ length buf.old) }
{
    console::read_some(input, buf).map_err(Fault::Input)
}

// Moves what the first n bytes leave over after the last whole request to the front, and says how many bytes that is.
fn keep_rest(buf: &mut [u8], n: usize) -> usize
    requires { n ≤ length buf.old }
    ensures value { result ≡ n % 4 }
    ensures after { take result buf.new ≡ left_over (take n buf.old) }
{
    let rest = n % 4;
    buf.copy_within(n - rest..n, 0);
    rest
}

// What is read of a trace in bytes, in fixed memory.
#[derive(Drop)]
pub(crate) struct Pieces {
    // no `ArrayVec`, which lends only what it holds, and `Read` fills a slice; no `BufReader`, which does not join what is left of a request with
    // what comes next
    buf: [u8; PIECE],
    // how many bytes the pieces so far leave over, which stand in front
    held: usize,
    // how many whole requests they had
    served: u64,
    ghost few: { held < 4 },
}

impl Pieces {
    pub(crate) fn new() -> Pieces
        ensures held { result.held ≡ 0 }
        ensures served { result.served ≡ 0 }
    {
        Pieces {
            buf: [0; PIECE],
            held: 0,
            served: 0,
        }
    }

    // Takes n bytes that came in behind those that were held. What is left over now comes to the front.
    fn take_in<S: Step>(&mut self, n: usize, step: &mut S) -> Result<(), Fault>
        requires within { self.old.held + n ≤ 65536 }
        ensures went { S.goes step.old (take (self.old.held + n) self.old.buf) step.new }
        ensures after { OnOk result (take self.new.held self.new.buf ≡ left_over (take (self.old.held + n) self.old.buf)) }
        ensures served { self.new.served ≡ min (self.old.served + (self.old.held + n) / 4) (2 ^ 64 - 1) }
    {
        let filled = self.held + n;
        self.served = self.served.saturating_add(filled as u64 / 4);
        step.take(Piece {
            bytes: &self.buf[..filled],
        })?;
        self.held = keep_rest(&mut self.buf, filled);
        Ok(())
    }
}

impl Source for Pieces {
    fn header<R: Read>(&mut self, input: &mut R) -> Result<Option<Header>, Fault> {
        let mut head = [0u8; 4];
        let n = console::fill(input, &mut head).map_err(Fault::Input)?;
        let header = trace::read_header(&head[..n]).ok_or(Fault::InHeader(n))?;
        Ok(Some(header))
    }

    fn take_some<R: Read, S: Step>(&mut self, input: &mut R, step: &mut S) -> Result<usize, Fault> {
        let held = self.held;
        let n = read_some(input, &mut self.buf[held..])?;
        if n > 0 {
            self.take_in(n, step)?;
        }
        Ok(n)
    }

    // The input may end only where no request was begun.
    fn take_end<S: Step>(&mut self, _step: &mut S) -> Result<(), Fault>
        ensures whole { is_ok result ≡ true → self.new.held ≡ 0 }
        ensures cut { IfErr result (λ f. f ≡ fault.InRequest self.old.served) }
    {
        if self.held > 0 {
            return Err(Fault::InRequest(self.served));
        }
        Ok(())
    }
}
