// What was seen on many days. Counts are added with `saturating_add`: they stay far below 2^64, so that nothing has to be proved of them.

// How close LRU with k places came to its bound: (k - h + 1) x LRU of k x fewest.
#[derive(Clone, Copy)]
pub struct Close {
    pub part: u64,
    pub whole: u64,
    pub k: usize,
}

impl Close {
    // Whether it is a larger part of the whole than another.
    fn is_above(self, other: Close) -> bool {
        self.part.saturating_mul(other.whole) > other.part.saturating_mul(self.whole)
    }
}

#[derive(Clone, Copy, Default)]
pub struct Tally {
    pub days: u64,
    pub schedules: u64,
    pub compared: u64,
    pub failed: u64,
    pub closest: Option<Close>,
}

impl Tally {
    // One more day, with so many schedules.
    pub fn add_day(&mut self, schedules: u64) {
        self.days = self.days.saturating_add(1);
        self.schedules = self.schedules.saturating_add(schedules);
    }

    // One more comparison, and whether everything was as it should be.
    pub fn add_comparison(&mut self, right: bool, close: Close) {
        self.compared = self.compared.saturating_add(1);
        self.failed = self.failed.saturating_add(u64::from(!right));
        if self.closest.is_none_or(|closest| close.is_above(closest)) {
            self.closest = Some(close);
        }
    }

    // Adds the counts of another tally. What came closest stays as it is, so this is no `+=`.
    pub fn add_all(&mut self, other: Tally) {
        self.days = self.days.saturating_add(other.days);
        self.schedules = self.schedules.saturating_add(other.schedules);
        self.compared = self.compared.saturating_add(other.compared);
        self.failed = self.failed.saturating_add(other.failed);
    }
}
