// The whole picture.
ghost use Rattle.std.specs.Prelude.{◌≡◌, true, ◌++◌, length, is_ok, string_bytes};
ghost use Rattle.picture.specs.Pictured.{drawn};
ghost use Rattle.picture.specs.Undrawn.{Drawn};

use crate::scales::Scale;
use crate::shapes::Shape;
use crate::undrawable::Undrawable;
use std::fmt;

// The most places that a report has. Not `curve::MAX_CAPACITIES`: this crate stands on no other, and would on six for one number.
const MAX: usize = 4096;

// A report and where it stands.
#[derive(Clone, Copy, Debug)]
pub(crate) struct Picture<'a> {
    // what LRU fetches with 1, 2 .. places, and the fewest that anybody could
    pub(crate) house: &'a [u64],
    pub(crate) known: &'a [u64],
    pub(crate) scale: Scale,
    ghost house_long: { length house.now ≡ scale.places },
    ghost known_long: { length known.now ≡ scale.places },
}

impl Picture<'_> {
    // Adds the picture, with a mark at k places.
    fn tell(&self, k: usize, text: &mut String) -> fmt::Result
        ensures lines { is_ok result ≡ true → string_bytes text.new ≡ string_bytes text.old ++ drawn self.now.house.now self.now.known.now self.now.scale.top self.now.scale.apart self.now.scale.places k }
    {
        let scale = self.scale;
        write!(text, "{}", Shape::Head)?;
        scale.tell_fetches(text)?;
        scale.tell_places(text)?;
        let house = Shape::House {
            y: scale.height(self.house[0]),
        };
        scale.tell_line(house, self.house, text)?;
        let known = Shape::Known {
            y: scale.height(self.known[0]),
        };
        scale.tell_line(known, self.known, text)?;
        self.tell_mark(k, text)?;
        write!(text, "{}{}", Shape::Legend, Shape::Tail)?;
        Ok(())
    }
}

// Adds the picture of a report's row for m capacities, with a mark at k places. Where there is no such row, it adds nothing.
pub fn draw(row: &[u64], m: usize, k: usize, text: &mut String) -> Result<(), Undrawable>
    ensures drawn { Drawn row.now m k result (string_bytes text.old) (string_bytes text.new) }
{
    if m == 0 || m > MAX || row.len() < 2 * m {
        return Err(Undrawable::NoRow);
    }
    let picture = Picture {
        house: &row[..m],
        known: &row[m..2 * m],
        scale: Scale::new(row[0].min(MAX as u64), m as u64),
    };
    picture.tell(k, text)?;
    Ok(())
}
