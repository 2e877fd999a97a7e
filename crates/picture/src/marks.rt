// The mark at the number of places that was asked for, and what stands beside it.
ghost use Rattle.std.specs.Prelude.{◌≡◌, true, ◌++◌, is_ok, string_bytes};
ghost use Rattle.picture.specs.Pictured.{mark};

use crate::pictures::Picture;
use crate::shapes::{Label, Shape};
use std::fmt;

// Into the text as the axes are: a `Display` would need a type of its own, a picture with k beside it, for one call.
impl Picture<'_> {
    // Adds the mark for k places, where the picture has them.
    pub(crate) fn tell_mark(&self, k: usize, text: &mut String) -> fmt::Result
        ensures lines { is_ok result ≡ true → string_bytes text.new
            ≡ string_bytes text.old ++ mark self.now.house.now self.now.known.now self.now.scale.top self.now.scale.places k }
    {
        if k == 0 || k > self.house.len() {
            return Ok(());
        }
        let house = self.house[k - 1];
        let known = self.known[k - 1];
        let x = self.scale.middle(k as u64);
        let mark = Shape::Mark {
            x,
            above: self.scale.height(house),
            below: self.scale.height(known),
        };
        let label = Label {
            x,
            places: k as u64,
            house,
            known,
        };
        write!(text, "{mark}{label}")?;
        Ok(())
    }
}
