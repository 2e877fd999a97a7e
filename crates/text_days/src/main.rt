// Texts and the pages that they name, the way from bytes to text and back, and arguments with what is said of them.
#![tactic(auto)]

mod arguments;
mod texts;

use arguments::arguments;
use std::io;
use texts::{backs, texts};

fn main(rt: HostRuntime) -> io::Result<()> {
    texts(&rt)?;
    backs(&rt)?;
    arguments(&rt)
}
