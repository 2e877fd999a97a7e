// Plays a trace: an LRU cache serves each request, a line says what became of it, and a report follows. Or turns a trace from text to bytes,
// or back.
#![tactic(auto)]

mod faults;
mod help;
mod pieces;
mod sources;
mod steps;
mod texts;

use console::Asked;
use convert::header_with;
use faults::{Fault, Told, picture_of};
use help::HELP;
use options::{Given, Program};
use pieces::Pieces;
use sources::Source;
use std::fs;
use std::io::{Read, Write};
use std::process::ExitCode;
use steps::{Packing, Playing, Unpacking};
use texts::Texts;
use trace::{Detail, Header};

fn main(rt: HostRuntime) -> ExitCode {
    let asked = match console::ask(&rt, Program::Play) {
        Ok(asked) => asked,
        Err(status) => return status,
    };
    let ended = play(&rt, &asked).map_err(|fault| Told {
        asked: &asked,
        fault,
    });
    console::status(&rt, ended)
}

// Does what is asked with the input that is named. The system, what is asked and the input stay three parameters from here on: a struct
// would be taken apart in each function.
fn play(rt: &HostRuntime, asked: &Asked) -> Result<(), Fault> {
    if asked.given.help {
        return rt.print(HELP).map_err(Fault::Output);
    }
    match asked.file() {
        Some(path) => work(rt, asked, &mut fs::open(rt, path).map_err(Fault::Input)?),
        None => work(rt, asked, &mut rt.stdin()),
    }
}

// What is done with a trace.
#[derive(Clone, Copy)]
enum Task {
    // it is in bytes, and played
    Play,
    // it is text, and played
    PlayText,
    // it is text, and turned into bytes
    Pack,
    // it is in bytes, and turned into text
    Unpack,
}

impl From<Given> for Task {
    fn from(given: Given) -> Task {
        if given.pack {
            Task::Pack
        } else if given.unpack {
            Task::Unpack
        } else if given.text {
            Task::PlayText
        } else {
            Task::Play
        }
    }
}

fn work<R: Read>(rt: &HostRuntime, asked: &Asked, input: &mut R) -> Result<(), Fault> {
    let heap = rt.alloc();
    match Task::from(asked.given) {
        Task::Play => play_all(rt, asked, &mut Pieces::new(), input),
        Task::PlayText => play_all(rt, asked, &mut Texts::new(heap), input),
        Task::Pack => {
            let mut texts = Texts::new(heap);
            let header = header_of(asked, &mut texts, input)?;
            texts.take_all(input, &mut Packing::begin(rt.stdout(), header)?)
        }
        Task::Unpack => {
            let mut pieces = Pieces::new();
            let header = header_of(asked, &mut pieces, input)?;
            let mut lines = Unpacking::begin(heap, rt.stdout(), header)?;
            pieces.take_all(input, &mut lines)?;
            lines.flush()
        }
    }
}

// The header that is worked with: what is given, and else what the trace says itself.
fn header_of<S: Source, R: Read>(
    asked: &Asked,
    source: &mut S,
    input: &mut R,
) -> Result<Header, Fault> {
    let own = source.header(input)?;
    Ok(header_with(asked.given.places, asked.given.report, own))
}

// Plays all of a trace.
fn play_all<S: Source, R: Read>(
    rt: &HostRuntime,
    asked: &Asked,
    source: &mut S,
    input: &mut R,
) -> Result<(), Fault> {
    let header = header_of(asked, source, input)?;
    let mut day = Playing::new(rt.alloc(), rt.stdout(), header, asked.given.detail());
    source.take_all(input, &mut day)?;
    close(rt, asked, header, &mut day)
}

// Says what is to be said of a day when the input has ended.
fn close<W: Write>(
    rt: &HostRuntime,
    asked: &Asked,
    header: Header,
    day: &mut Playing<W>,
) -> Result<(), Fault> {
    if day.detail == Detail::Summary {
        day.sum_up(header.capacity)?;
    }
    day.report()?;
    match picture_of(asked) {
        Some(path) => day.draw(rt, path, header.capacity),
        None => Ok(()),
    }
}
