// What is said of days that play is given: the worked one, and those at the edges.
#![tactic(auto)]

ghost use Rattle.std.specs.Prelude.{◌<◌};

use day::{Day, PIECE, Piece};
use std::{fmt, io};

fn main(rt: HostRuntime) -> io::Result<()> {
    worked(&rt)?;
    edges(&rt)?;
    long(&rt)
}

// What is said of a day that is served in two pieces. Where the bytes have no header, or more than a piece of requests, or there is no memory, nothing is.
fn said(rt: &HostRuntime, bytes: &[u8]) -> Result<Option<String>, fmt::Error> {
    let Some(header) = trace::read_header(bytes) else {
        return Ok(None);
    };
    let requests = &bytes[4..];
    if requests.len() > PIECE {
        return Ok(None);
    }
    let mut text = String::new(rt.alloc());
    let mut day = Day::new(header);
    let half = requests.len() / 8 * 4;
    day.serve(
        Piece {
            bytes: &requests[..half],
        },
        &mut text,
    )?;
    day.serve(
        Piece {
            bytes: &requests[half..],
        },
        &mut text,
    )?;
    day.report(&mut text)?;
    Ok(Some(text))
}

fn show(rt: &HostRuntime, name: &str, bytes: &[u8]) -> io::Result<()> {
    match said(rt, bytes) {
        Ok(Some(text)) => print!(rt; "{name}:\n{text}"),
        _ => println!(rt; "{name}: nothing is said"),
    }
}

// A day of so many requests, in turn for the pages below a bound. Only how many lines there are, and the last of them.
fn show_end(rt: &HostRuntime, name: &str, requests: u32, pages: u32) -> io::Result<()>
    requires { 0 < pages }
{
    let mut bytes = Vec::new(rt.alloc());
    bytes.extend_from_slice(&[2, 0, 1, 0])?;
    for i in 1..=requests {
        bytes.extend_from_slice(&(i % pages).to_le_bytes())?;
    }
    let Ok(Some(text)) = said(rt, &bytes) else {
        return println!(rt; "{name}: nothing is said");
    };
    let count = text.lines().count();
    let last = text.lines().last().unwrap_or("");
    println!(rt; "{name}: {count} lines, the last is {last}")
}

fn worked(rt: &HostRuntime) -> io::Result<()> {
    let ten =
        b"\x03\0\x04\0\x01\0\0\0\x02\0\0\0\x03\0\0\0\x01\0\0\0\x04\0\0\0\x01\0\0\0\x02\0\0\0\x05\0\0\0\x03\0\0\0\x01\0\0\0";
    show(rt, "ten requests", ten)
}

fn edges(rt: &HostRuntime) -> io::Result<()> {
    show(rt, "no request", &[3, 0, 2, 0])?;
    show(rt, "no capacities", &[2, 0, 0, 0, 7, 0, 0, 0, 7, 0, 0, 0])?;
    show(rt, "4097 capacities", &[2, 0, 1, 16, 7, 0, 0, 0])?;
    let twice = [0, 0, 2, 0, 7, 0, 0, 0, 8, 0, 0, 0, 7, 0, 0, 0];
    show(rt, "no places, and a report", &twice)?;
    show(rt, "4097 places", &[1, 16, 1, 0, 255, 255, 255, 255])?;
    show(rt, "no places, no capacities", &[0, 0, 0, 0, 7, 0, 0, 0])?;
    show(rt, "three bytes", &[3, 0, 2])
}

fn long(rt: &HostRuntime) -> io::Result<()> {
    show_end(rt, "4096 requests for one page", 4096, 1)?;
    show_end(rt, "4096 requests for two pages", 4096, 2)?;
    show_end(rt, "4097 requests", 4097, 3)?;
    show_end(rt, "16384 requests", 16384, 3)
}
