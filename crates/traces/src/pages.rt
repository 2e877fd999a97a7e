// Pages as programs print them.
ghost use Rattle.std.specs.Prelude.{Some};

use std::fmt;

// Pages with a blank before each.
#[derive(Clone, Copy, Debug)]
pub struct Pages<'a>(pub &'a [u64]);

impl fmt::Display for Pages<'_> {
    ghost use Rattle.traces.specs.Pages.{pages_text};

    ghost output = { λ pages. Some (pages_text pages.0.now) };

    fn fmt<W: fmt::Write>(&self, f: &mut fmt::Formatter<W>) -> fmt::Result {
        for page in self.0 {
            write!(f, " {page}")?;
        }
        Ok(())
    }
}
