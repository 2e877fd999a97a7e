// Where the requests of a trace come from, piece by piece.
use crate::faults::Fault;
use crate::steps::Step;
use std::io::Read;
use trace::Header;

pub(crate) trait Source {
    // The header that the input begins with, where this kind of trace has one.
    fn header<R: Read>(&mut self, input: &mut R) -> Result<Option<Header>, Fault>;

    // Reads once, takes what came in, and says how many bytes that was.
    fn take_some<R: Read, S: Step>(&mut self, input: &mut R, step: &mut S) -> Result<usize, Fault>;

    // Takes what stands at the end of the input.
    fn take_end<S: Step>(&mut self, step: &mut S) -> Result<(), Fault>;

    // Takes the requests up to the end of the input, and then the end. Nothing says that an input ends, so the turns are counted.
    fn take_all<R: Read, S: Step>(&mut self, input: &mut R, step: &mut S) -> Result<(), Fault> {
        for _ in 0..u64::MAX {
            if self.take_some(input, step)? == 0 {
                break;
            }
        }
        self.take_end(step)
    }
}
