// What stands on the picture, each as a piece of SVG.
ghost use Rattle.std.specs.Prelude.{Some};
ghost use Rattle.picture.specs.Drawn.{shape_bytes, label_bytes};

use std::fmt;

#[derive(Clone, Copy, Debug, PartialEq, Eq)]
pub(crate) enum Shape {
    // what the file begins with
    Head,
    // a line across at a height, and the number of fetches there
    Fetches { y: u64, n: u64 },
    // a mark on the lower edge, and the number of places there
    Places { x: u64, c: u64 },
    // the line of what LRU fetches begins at a height ..
    House { y: u64 },
    // .. and that of the fewest
    Known { y: u64 },
    // it goes on to there, and then up or down to a height
    Step { x: u64, y: u64 },
    // it goes on to the right edge
    Across,
    // the number of places asked for, and from which height to which the two lines lie apart
    Mark { x: u64, above: u64, below: u64 },
    // what the file ends with: which line is which
    Legend,
    // the edges
    Tail,
}

const HEAD: &str = "\
<svg xmlns='http://www.w3.org/2000/svg' viewBox='0 0 800 480' width='100%' font-family='sans-serif' font-size='16'>
<rect width='800' height='480' fill='#fff'/>
";

const LEGEND: &str = "\
<path d='M100 28H160' stroke='#d2691e' stroke-width='6'/><text x='170' y='33'>house</text>
<path d='M260 28H320' stroke='#102a5c' stroke-width='2.5' stroke-dasharray='9 4'/><text x='330' y='33'>known</text>
";

const TAIL: &str = "\
<text x='70' y='62' text-anchor='end'>fetches</text><text x='420' y='470' text-anchor='middle'>places</text>
<path d='M80 90V420H760' fill='none' stroke='#000'/>
</svg>
";

impl fmt::Display for Shape {
    ghost output = { λ s. Some (shape_bytes s) };

    fn fmt<W: fmt::Write>(&self, f: &mut fmt::Formatter<W>) -> fmt::Result {
        match self {
            Shape::Head => f.write_str(HEAD),
            Shape::Fetches { y, n } => writeln!(
                f,
                "<path d='M80 {y}H760' stroke='#ccc'/><text x='70' y='{y}' dy='5' text-anchor='end'>{n}</text>"
            ),
            Shape::Places { x, c } => writeln!(
                f,
                "<path d='M{x} 420v6' stroke='#000'/><text x='{x}' y='444' text-anchor='middle'>{c}</text>"
            ),
            Shape::House { y } => write!(
                f,
                "<path fill='none' stroke='#d2691e' stroke-width='6' d='M80 {y}"
            ),
            Shape::Known { y } => write!(
                f,
                "<path fill='none' stroke='#102a5c' stroke-width='2.5' stroke-dasharray='9 4' d='M80 {y}"
            ),
            Shape::Step { x, y } => write!(f, "H{x}V{y}"),
            Shape::Across => writeln!(f, "H760'/>"),
            Shape::Mark { x, above, below } => writeln!(
                f,
                "<path d='M{x} 70V420' stroke='#555' stroke-dasharray='2 3'/><path d='M{x} {above}V{below}' stroke='#000' stroke-width='2'/>"
            ),
            Shape::Legend => f.write_str(LEGEND),
            Shape::Tail => f.write_str(TAIL),
        }
    }
}

// The numbers beside the mark, on the side where there is more room.
#[derive(Clone, Copy, Debug, PartialEq, Eq)]
pub(crate) struct Label {
    // where the mark is
    pub(crate) x: u64,
    // the number of places
    pub(crate) places: u64,
    // what LRU fetches, and the fewest
    pub(crate) house: u64,
    pub(crate) known: u64,
}

impl fmt::Display for Label {
    ghost output = { λ l. Some (label_bytes l) };

    fn fmt<W: fmt::Write>(&self, f: &mut fmt::Formatter<W>) -> fmt::Result {
        let Label {
            x,
            places,
            house,
            known,
        } = *self;
        let side = if x <= 420 {
            "dx='8'"
        } else {
            "dx='-8' text-anchor='end'"
        };
        let gap = house.saturating_sub(known);
        writeln!(
            f,
            "<text x='{x}' y='80' {side}>{places}: house {house} known {known}, gap {gap}</text>"
        )
    }
}
