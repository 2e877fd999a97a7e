// A day as text: a line for each page.
ghost use Rattle.std.specs.Prelude.{◌≡◌, true, ◌++◌, is_ok, string_bytes};
ghost use Rattle.convert.specs.Days.{text_of, header_line};
ghost use Rattle.convert.specs.Claims.{ThereAndBack};

use std::fmt;
use trace::Header;

// Adds the lines of pages to the text.
#[tactic(auto, using(crate::proofs::Backs::there_and_back), unfolding(crate::specs::Days::text_of))]
pub fn unpack(pages: &[u64], text: &mut String) -> fmt::Result
    ensures lines { is_ok result ≡ true → string_bytes text.new ≡ string_bytes text.old ++ text_of pages.now }
    ensures back { ThereAndBack }
{
    for page in pages {
        writeln!(text, "{page}")?;
    }
    Ok(())
}

// Adds the comment line that says what a day's header was. A function and no type with `Display`, which would be there for this one line.
pub fn unpack_header(header: Header, text: &mut String) -> fmt::Result
    ensures lines { is_ok result ≡ true → string_bytes text.new ≡ string_bytes text.old ++ header_line header }
{
    writeln!(
        text,
        "# places {} report {}",
        header.capacity, header.reported
    )?;
    Ok(())
}
