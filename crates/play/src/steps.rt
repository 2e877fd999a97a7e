// What is done with the requests of a trace, which come in piece by piece.
ghost use Rattle.std.specs.Prelude.{◌≡◌, ℕ, true, [], List, is_ok, IfOk, string_bytes};
ghost use Rattle.trace.specs.Requests.{requests_in};
ghost use Rattle.lru_cache.specs.Rows.{capacity, cached};
ghost use Rattle.closing.specs.Summed.{Summed};
ghost use Rattle.day.specs.Said.{lines_for};
ghost use Rattle.day.specs.Reports.{report_of};
ghost use Rattle.day.specs.Days.{kept, Begun, Went};
ghost use Rattle.closing.specs.Drawn.{Pictured};
ghost use Rattle.convert.specs.Days.{header_line};

use crate::faults::Fault;
use closing::Requests;
use day::{Day, Piece};
use std::alloc::Global;
use std::io::Write;
use trace::{Detail, Header};

pub(crate) trait Step {
    // what a piece of so many bytes does
    ghost goes: { Self → List ℕ → Self → Type 0 };

    // Takes the requests that a piece holds whole.
    fn take(&mut self, piece: Piece<'_>) -> Result<(), Fault>
        ensures went { goes self.old piece.entry.bytes.now self.new };
}

fn written<W: Write>(out: &mut W, bytes: &[u8]) -> Result<(), Fault> {
    out.write_all(bytes).map_err(Fault::Output)
}

// The requests of a day, as far as it kept them. `Requests` is closing's, and made here: closing stands on no day.
fn requests_of(day: &Day) -> Requests<'_>
    ensures kept { result.kept.now ≡ kept day.now }
    ensures total { result.total ≡ day.now.total }
{
    Requests {
        kept: day.kept(),
        total: day.total,
    }
}

// A day that is played: its requests are served, and a line says what became of each.
#[derive(Drop)]
pub(crate) struct Playing<W> {
    out: W,
    day: Day,
    // the lines of a piece, or what was said last
    text: String,
    pub(crate) detail: Detail,
}

impl<W: Write> Playing<W> {
    pub(crate) fn new(heap: Global, out: W, header: Header, detail: Detail) -> Playing<W>
        ensures begun { Begun header result.day }
        ensures detail { result.detail ≡ detail }
    {
        Playing {
            out,
            day: Day::new(header),
            text: String::new(heap),
            detail,
        }
    }

    // Writes the summary for k places, which the text then holds. Here and in the two below the day stays as it was, a fault or not: each
    // speaks of what came in.
    pub(crate) fn sum_up(&mut self, k: usize) -> Result<(), Fault>
        ensures day { self.new.day ≡ self.old.day }
        ensures detail { self.new.detail ≡ self.old.detail }
        ensures lines { is_ok result ≡ true → Summed (kept self.old.day) self.old.day.total k [] (string_bytes self.new.text) }
    {
        self.text.clear();
        closing::tell_summary(requests_of(&self.day), k, &mut self.text)?;
        written(&mut self.out, self.text.as_bytes())
    }

    // Writes the report, which the text then holds.
    pub(crate) fn report(&mut self) -> Result<(), Fault>
        ensures day { self.new.day ≡ self.old.day }
        ensures detail { self.new.detail ≡ self.old.detail }
        ensures lines { is_ok result ≡ true → string_bytes self.new.text ≡ report_of (kept self.old.day) self.old.day.total self.old.day.reported }
    {
        self.text.clear();
        self.day.report(&mut self.text)?;
        written(&mut self.out, self.text.as_bytes())
    }

    // Writes the picture of the report to the file, with a mark at k places.
    pub(crate) fn draw(&mut self, rt: &HostRuntime, path: &str, k: usize) -> Result<(), Fault>
        ensures day { self.new.day ≡ self.old.day }
        ensures detail { self.new.detail ≡ self.old.detail }
        ensures drawn { is_ok result ≡ true → Pictured (kept self.old.day) self.old.day.reported k [] (string_bytes self.new.text) }
    {
        let day = &self.day;
        self.text.clear();
        closing::draw(requests_of(day), day.reported, k, &mut self.text)?;
        console::write_whole(rt, path, self.text.as_bytes()).map_err(Fault::Picture)
    }
}

impl<W: Write> Step for Playing<W> {
    ghost goes = { λ s bytes t. Went s.day (requests_in bytes) t.day };

    // Serves the requests, whose lines the text then holds, and writes these where they are asked for.
    fn take(&mut self, piece: Piece<'_>) -> Result<(), Fault>
        ensures went { Went self.old.day (requests_in piece.entry.bytes.now) self.new.day }
        ensures detail { self.new.detail ≡ self.old.detail }
        ensures lines { is_ok result ≡ true → string_bytes self.new.text ≡ lines_for (capacity self.old.day.cache) (cached self.old.day.cache) (requests_in piece.entry.bytes.now) }
    {
        self.text.clear();
        self.day.serve(piece, &mut self.text)?;
        match self.detail {
            Detail::Requests => written(&mut self.out, self.text.as_bytes()),
            Detail::Summary => Ok(()),
        }
    }
}

// A trace that is turned into bytes.
#[derive(Drop)]
pub(crate) struct Packing<W> {
    out: W,
}

impl<W: Write + Drop> Packing<W> {
    // Writes the header first.
    pub(crate) fn begin(mut out: W, header: Header) -> Result<Packing<W>, Fault> {
        written(&mut out, &<[u8; 4]>::from(header))?;
        Ok(Packing { out })
    }
}

impl<W: Write> Step for Packing<W> {
    ghost goes = { λ _ _ _. Unit {0} };

    fn take(&mut self, piece: Piece<'_>) -> Result<(), Fault> {
        written(&mut self.out, piece.bytes)
    }
}

// A trace that is turned into text: a comment line for its header, and a line for each page.
#[derive(Drop)]
pub(crate) struct Unpacking<W> {
    out: W,
    // what is not written yet
    text: String,
}

impl<W: Write + Drop> Unpacking<W> {
    pub(crate) fn begin(heap: Global, out: W, header: Header) -> Result<Unpacking<W>, Fault>
        ensures noted { IfOk result (λ begun. string_bytes begun.text ≡ header_line header) }
    {
        let mut text = String::new(heap);
        convert::unpack_header(header, &mut text)?;
        Ok(Unpacking { out, text })
    }

    // Writes what is left.
    pub(crate) fn flush(&mut self) -> Result<(), Fault>
        ensures empty { is_ok result ≡ true → string_bytes self.new.text ≡ [] }
    {
        written(&mut self.out, self.text.as_bytes())?;
        self.text.clear();
        Ok(())
    }
}

impl<W: Write + Drop> Step for Unpacking<W> {
    ghost goes = { λ _ _ _. Unit {0} };

    fn take(&mut self, piece: Piece<'_>) -> Result<(), Fault> {
        convert::unpack_bytes(piece.bytes, &mut self.text)?;
        self.flush()
    }
}
