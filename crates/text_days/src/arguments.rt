// Arguments of both programs, and what is said of them.
use options::{Given, Program};
use std::alloc::{AllocError, Global};
use std::{fmt, io};
use wrongs::Message;

fn split(heap: Global, line: &str) -> Result<Vec<String>, AllocError> {
    line.split(' ')
        .map(|word| String::from_str(heap, word))
        .try_collect(heap)
}

// Adds what was given to the text: each option with its value, 1 where it takes none, or the place of the argument that names a file.
fn tell_given(given: Given, said: &mut String) -> fmt::Result {
    let values = [
        ("file", given.file),
        ("help", given.help.then_some(1)),
        ("text", given.text.then_some(1)),
        ("places", given.places),
        ("report", given.report),
        ("pack", given.pack.then_some(1)),
        ("unpack", given.unpack.then_some(1)),
        ("summary", given.summary.then_some(1)),
        ("svg", given.svg),
        ("rival", given.rival),
        ("rounds", given.rounds),
        (
            "policy",
            given.policy.map(|kind| usize::from(u8::from(kind))),
        ),
    ];
    for (name, value) in values {
        if let Some(value) = value {
            write!(said, " {name} {value}")?;
        }
    }
    Ok(())
}

fn tell(program: Program, words: &[String], said: &mut String) -> fmt::Result {
    match Given::read(program, words) {
        Ok(given) => tell_given(given, said),
        Err(wrong) => {
            let message = Message::new(program, wrong, words);
            write!(said, " {message}")?;
            Ok(())
        }
    }
}

fn show(rt: &HostRuntime, program: Program, line: &str) -> io::Result<()> {
    let words = split(rt.alloc(), line)?;
    let mut said = String::new(rt.alloc());
    tell(program, &words, &mut said)?;
    println!(rt; "{line}:{said}")
}

// What `play` is given.
const PLAY: [&str; 24] = [
    "day.txt",
    "--text --places 3 day.txt --report 4096",
    "--pack --places 1 --places 0007",
    "--unpack - --help",
    "--text --summary --svg out.svg",
    "--foo",
    "day.txt --",
    "-h",
    "--places=3",
    "--places x",
    "--places -5",
    "--places 0",
    "--report 4097",
    "--report +5",
    "--text --report",
    "--svg --text",
    "--svg -",
    "--svg ",
    "- b",
    "a b",
    "--text a b",
    "--text --unpack",
    "--pack --unpack",
    "--rival 3",
];

// What `challenge` is given.
const CHALLENGE: [&str; 5] = [
    "--places 3 --rival 2 --rounds 9 --policy lfu --summary",
    "--rounds 0 --policy lru",
    "--rounds 65536",
    "--policy mru",
    "--text",
];

fn show_all(rt: &HostRuntime, program: Program, lines: &[&str]) -> io::Result<()> {
    for line in lines {
        show(rt, program, line)?;
    }
    Ok(())
}

pub(crate) fn arguments(rt: &HostRuntime) -> io::Result<()> {
    show_all(rt, Program::Play, &PLAY)?;
    show_all(rt, Program::Challenge, &CHALLENGE)
}
