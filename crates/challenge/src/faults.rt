// Why a policy is not challenged.
ghost use Rattle.challenge.specs.Faults.{told_bytes};

use contest::Fault as Cause;
use std::{fmt, io};

#[derive(Clone, Copy)]
pub(crate) enum Fault {
    // the input can't be opened or read
    Input(io::Error),
    // the input ends after so many bytes
    Short(usize),
    // the input has more bytes than there are settings
    Long,
    // the challenge is not told to its end
    Contest(Cause),
    // the line of use can't be written
    Output(io::Error),
}

// A fault, in the input of that name: in words of this program, as `play` has its own. What both share is `console::status`, which
// prints it.
#[derive(Clone, Copy)]
pub(crate) struct Told<'a> {
    pub(crate) name: &'a str,
    pub(crate) fault: Fault,
}

impl fmt::Display for Told<'_> {
    ghost output = { λ t. told_bytes t.name.now t.fault };

    fn fmt<W: fmt::Write>(&self, f: &mut fmt::Formatter<W>) -> fmt::Result {
        let Told { name, fault } = *self;
        match fault {
            Fault::Input(e) => write!(f, "challenge: cannot read {name}: {e}"),
            Fault::Short(n) => write!(f, "challenge: {name} ends after {n} of 7 bytes"),
            Fault::Long => write!(f, "challenge: {name} goes on after 7 bytes"),
            Fault::Contest(Cause::NoPolicy(policy)) => write!(
                f,
                "challenge: {name} asks for policy {policy} in byte 7: there are 0, 1 and 2"
            ),
            Fault::Contest(Cause::Output(e)) | Fault::Output(e) => {
                write!(f, "challenge: cannot write to standard output: {e}")
            }
            Fault::Contest(memory @ Cause::Memory) => write!(f, "challenge: {memory}"),
            Fault::Contest(Cause::Refused(_)) => write!(f, "challenge: {name} is refused"),
        }
    }
}
