// The requests of a day, as far as they were kept.
ghost use Rattle.std.specs.Prelude.{◌≡◌};
ghost use Rattle.std.specs.Result.{result_err};
ghost use Rattle.closing.specs.Summed.{cut_off};

use lru_cache::Refusal;

#[derive(Clone, Copy, Debug)]
pub struct Requests<'a> {
    // the first of the day
    pub kept: &'a [u64],
    // how many there were
    pub total: u64,
}

impl Requests<'_> {
    // A day of which not all requests were kept is refused.
    pub(crate) fn whole(self) -> Result<(), Refusal>
        ensures refused { result_err result ≡ cut_off self.entry.kept.now self.entry.total }
    {
        if self.total > self.kept.len() as u64 {
            return Err(Refusal::LongTrace(self.total));
        }
        Ok(())
    }
}
