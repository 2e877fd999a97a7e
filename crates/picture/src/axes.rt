// The numbers on the two axes.
ghost use Rattle.std.specs.Prelude.{◌≡◌, ◌+◌, ◌/◌, true, ◌++◌, is_ok, string_bytes};
ghost use Rattle.picture.specs.Pictured.{told, fetches_piece, places_piece};
ghost use Rattle.picture.specs.Scaled.{step};

use crate::scales::{Scale, step};
use crate::shapes::Shape;
use std::fmt;

// Into the text, and no `Display`: each axis would need a type of its own, for one call.
impl Scale {
    // Adds the numbers of fetches from 0 to the top.
    pub(crate) fn tell_fetches(self, text: &mut String) -> fmt::Result
        ensures lines { is_ok result ≡ true → string_bytes text.new ≡ string_bytes text.old ++ told (fetches_piece self.top self.apart) 0 (self.top / self.apart + 1) }
    {
        for n in (0..=self.top).step_by(self.apart as usize) {
            let y = self.height(n);
            write!(text, "{}", Shape::Fetches { y, n })?;
        }
        Ok(())
    }

    // Adds the numbers of places, at most ten of them.
    pub(crate) fn tell_places(self, text: &mut String) -> fmt::Result
        ensures lines { is_ok result ≡ true →
            let s = step ((self.places + 1) / 2) in string_bytes text.new ≡ string_bytes text.old ++ told (places_piece self.places s) 0 (self.places / s) }
    {
        let apart = step(self.places.div_ceil(2));
        for c in (apart..=self.places).step_by(apart as usize) {
            let x = self.middle(c);
            write!(text, "{}", Shape::Places { x, c })?;
        }
        Ok(())
    }
}
