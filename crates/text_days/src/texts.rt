// Texts and the pages that they name, whole and cut in two at every place; and bytes as text and back.
ghost use Rattle.std.specs.Prelude.{◌≤◌, length};

use std::{fmt, io};
use text::Reader;
use trace::Header;

// Reads a text in two pieces into the row, and says how many pages there are: a `Reader` writes to a row that it is lent.
fn read_cut(reader: &mut Reader, text: &[u8], cut: usize, row: &mut [u64]) -> usize
    ensures { result ≤ length row.old }
{
    let cut = cut.min(text.len());
    let first = reader.read(&text[..cut], row);
    let second = reader.read(&text[cut..], &mut row[first..]);
    let both = first + second;
    both + reader.read(b"\n", &mut row[both..])
}

fn tell(text: &[u8], cut: usize, said: &mut String) -> fmt::Result {
    let mut reader = Reader::new();
    let mut row = [0u64; 256];
    let n = read_cut(&mut reader, text, cut, &mut row);
    // A blank before each, as `traces::Pages` has it: two lines here, and this program stands on no traces.
    for page in &row[..n] {
        write!(said, " {page}")?;
    }
    if let Some(word) = reader.bad() {
        write!(said, " day.txt:{word}")?;
    }
    Ok(())
}

// What a text names, and each cut at which it would name something else: there is none.
fn show(rt: &HostRuntime, name: &str, text: &str) -> io::Result<()> {
    let mut said = String::new(rt.alloc());
    tell(text.as_bytes(), 0, &mut said)?;
    println!(rt; "{name}:{said}")?;
    for cut in 1..text.len() {
        let mut again = String::new(rt.alloc());
        tell(text.as_bytes(), cut, &mut again)?;
        if again != said {
            println!(rt; "{name}, cut at {cut}:{again}")?;
        }
    }
    Ok(())
}

// Texts by what they show.
const TEXTS: [(&str, &str); 18] = [
    ("one a line", "1\n2\n3\n"),
    ("several in a line", "1 2\t3\r\n  4\n\n5"),
    ("comments", "# ten\n1#one\n2 # two 3\n#\n4#"),
    ("nothing", ""),
    ("blanks", " \t\r\n \n"),
    ("the largest", "4294967295 0 00000000000000000007"),
    ("one too large", "1\n4294967296\n2\n"),
    ("much too large", "18446744073709551617 1"),
    ("no digits", "1 2\n\n# 3\n4 abc 5\n"),
    ("a sign", "7\n-1\n"),
    ("another", "+5"),
    ("a fraction", "5.0 6"),
    ("not in ASCII", "1\n\u{e9}\u{1}x\n"),
    ("marks in front", "\u{feff}1 2\n\u{feff}# 3\n\u{feff}\n4"),
    ("a mark behind", "1 2\u{feff}\n"),
    ("a NUL byte", "1\n2\0\n"),
    ("forty bytes", "x234567890123456789012345678901234567890"),
    (
        "and one more",
        "x2345678901234567890123456789012345678901 2",
    ),
];

pub(crate) fn texts(rt: &HostRuntime) -> io::Result<()> {
    for (name, text) in TEXTS {
        show(rt, name, text)?;
    }
    Ok(())
}

// Whether bytes are the same as text and in bytes again, behind the text.
fn back(rt: &HostRuntime, name: &str, bytes: &[u8]) -> io::Result<()> {
    let mut text = String::new(rt.alloc());
    let header = Header {
        capacity: 40,
        reported: 3,
    };
    convert::unpack_header(header, &mut text)?;
    convert::unpack_bytes(bytes, &mut text)?;
    let mut reader = Reader::new();
    let mut out = [0u8; 1024];
    let n = convert::pack_text(&mut reader, text.as_bytes(), &mut out);
    let same = if &out[..n] == bytes {
        "the same"
    } else {
        "another"
    };
    print!(rt; "{name}:\n{text}in bytes again: {same}\n")
}

pub(crate) fn backs(rt: &HostRuntime) -> io::Result<()> {
    back(rt, "no request", &[])?;
    back(rt, "two requests", &[1, 0, 0, 0, 255, 255, 255, 255])?;
    back(
        rt,
        "four requests",
        &[0, 0, 0, 0, 0, 0, 0, 1, 4, 3, 2, 1, 10, 0, 0, 0],
    )?;
    back(rt, "a request and a half", &[7, 0, 0, 0, 7, 0])?;
    let header = Header {
        capacity: 40,
        reported: 4096,
    };
    let [a, b, c, d] = <[u8; 4]>::from(header);
    println!(rt; "header: {a} {b} {c} {d}")
}
