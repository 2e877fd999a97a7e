// Every feasible schedule of a short trace, walked through to its end. Nothing here knows which page is best kept.
// Counts are added with `saturating_add`: a day has a few million walks at most, so that nothing has to be proved of them.

// The schedules of a trace: how many there are, and the fewest requests that one of them fetches, if there is one.
#[derive(Clone, Copy, Default)]
pub struct Found {
    pub schedules: u64,
    pub fewest: Option<u64>,
}

impl Found {
    // One more schedule, which fetches so many.
    fn add(&mut self, fetched: u64) {
        self.schedules = self.schedules.saturating_add(1);
        self.fewest = Some(self.fewest.map_or(fetched, |fewest| fewest.min(fetched)));
    }
}

// Serves what is left of a trace with h places in every way there is. A cache is the set of its pages, bit p for page p. After a request it
// has the page requested, any of the others that it had before, and at most h in all; so pages may also go for no reason.
// Each call changes all that it is given but h, so that is no struct. The set is a number: `0..=others` with a mask goes through all that
// lie within another, 24 million times in all.
fn walk(left: &[u64], h: usize, cache: u64, fetched: u64, found: &mut Found) {
    let [page, rest @ ..] = left else {
        found.add(fetched);
        return;
    };
    let requested = 1 << (*page % 8);
    let others = cache & !requested;
    let fetched = fetched.saturating_add(u64::from(cache == others));
    for kept in 0..=others {
        let next = kept | requested;
        if kept & others == kept && next.count_ones() as usize <= h {
            walk(rest, h, next, fetched, found);
        }
    }
}

// All schedules of h places for a trace over pages below 8, from an empty cache on.
pub fn search(trace: &[u64], h: usize) -> Found {
    let mut found = Found::default();
    walk(trace, h, 0, 0, &mut found);
    found
}
