// Short days over the pages 0 to 5, made by a fixed generator.
use std::fmt;
use traces::Random;

#[derive(Clone, Copy)]
pub enum Habit {
    // Any of five pages.
    AnyPage,
    // The lower a page, the more often.
    Skewed,
    // Two to five pages in turn, one request in eight for any page.
    Loop,
    // Three pages at a time: first 0 to 2, then 1 to 3, and so on.
    Phases,
    // Pages 0 to 5 and back, a page now and then twice.
    TwoScans,
}

impl fmt::Display for Habit {
    fn fmt<W: fmt::Write>(&self, f: &mut fmt::Formatter<W>) -> fmt::Result {
        f.write_str(match self {
            Habit::AnyPage => "any page",
            Habit::Skewed => "skewed",
            Habit::Loop => "loop",
            Habit::Phases => "phases",
            Habit::TwoScans => "two scans",
        })
    }
}

// Page n of a loop of two to five pages; which length is the day's.
fn in_loop(n: u64, day: u64, random: u64) -> u64 {
    if random % 8 == 0 {
        random / 8 % 6
    } else {
        n % (day % 4 + 2)
    }
}

// Place n of a scan from 0 to 5 and back.
fn in_scans(n: u64) -> u64 {
    let place = n % 10;
    place.min(10 - place)
}

impl Habit {
    // Makes a day, another one for each number.
    pub fn fill(self, trace: &mut [u64], day: u64) {
        let mut numbers = Random::new(day);
        // a day begins at the second number
        numbers.draw();
        let mut scanned = day % 6;
        for (n, page) in (0..).zip(trace.iter_mut()) {
            let random = numbers.draw();
            // it never wraps, with one step for each of a few requests; `+=` asks for an invariant that says so
            scanned = scanned.wrapping_add(u64::from(random % 4 != 0));
            // one match here: closures would each take n, the day, the number and the place in the scan
            *page = match self {
                Habit::AnyPage => random % 5,
                Habit::Skewed => (random % 6).min(random / 6 % 6),
                Habit::Loop => in_loop(n, day, random),
                Habit::Phases => n / 3 % 4 + random % 3,
                Habit::TwoScans => in_scans(scanned),
            };
        }
    }
}
