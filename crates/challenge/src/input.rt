// The seven bytes that the program reads.
use crate::faults::Fault;
use std::io::Read;
use trace::Settings;

// The settings that the input is. A byte more than there are settings is read, to see that it ends.
pub(crate) fn read_all<R: Read>(input: &mut R) -> Result<Settings, Fault> {
    let mut bytes = [0u8; 8];
    let n = console::fill(input, &mut bytes).map_err(Fault::Input)?;
    if n > 7 {
        return Err(Fault::Long);
    }
    trace::read_settings(&bytes[..n]).ok_or(Fault::Short(n))
}
