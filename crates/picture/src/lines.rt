// A line of the picture, from the left to the right.
ghost use Rattle.std.specs.Prelude.{◌≡◌, true, ◌++◌, length, is_ok, string_bytes};
ghost use Rattle.picture.specs.Pictured.{line};

use crate::scales::Scale;
use crate::shapes::Shape;
use std::fmt;

// Into the text, and no `Display`, as the axes are.
impl Scale {
    // Adds a line that begins with this shape, and has a step wherever it is not as high with one place more.
    pub(crate) fn tell_line(self, start: Shape, fetches: &[u64], text: &mut String) -> fmt::Result
        requires long { length fetches.now ≡ self.places }
        ensures lines { is_ok result ≡ true → string_bytes text.new ≡ string_bytes text.old ++ line start fetches.now self.top self.places }
    {
        write!(text, "{start}")?;
        let mut before = self.height(fetches[0]);
        for (c, &n) in fetches.iter().enumerate() {
            let y = self.height(n);
            if y != before {
                let x = self.edge(c as u64);
                write!(text, "{}", Shape::Step { x, y })?;
            }
            before = y;
        }
        write!(text, "{}", Shape::Across)?;
        Ok(())
    }
}
