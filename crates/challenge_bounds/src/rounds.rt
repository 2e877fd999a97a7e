// A challenge of a policy, looked at after its opening and after each round.
use crate::counts::{Counts, Seen};
use crate::setting::{PLACES, Setting};
use adversary::Challenge;
use anyhow::ensure;
use policies::{Policy, WithCapacity};

// How many rounds there are after the opening.
const ROUNDS: usize = 6;

// A policy that is challenged, and what was seen of it.
#[derive(Drop)]
struct Run<P> {
    keeper: P,
    challenge: Challenge,
    row: [u64; 3 * PLACES + 1],
    seen: Seen,
}

impl<P: Policy> Run<P> {
    // Asks the policy for n pages.
    fn ask(&mut self, n: usize) -> anyhow::Result<()> {
        for _ in 0..n {
            self.challenge = self.challenge.step(&mut self.row, self.keeper.shown())?;
            let page = self.challenge.page();
            self.seen.add(page, self.keeper.shown())?;
            self.keeper.serve(page);
        }
        self.challenge.accept(&self.row, self.keeper.shown())?;
        Ok(())
    }

    // The opening and the rounds, as far as the counts are what they should be.
    fn play(&mut self, setting: Setting) -> anyhow::Result<()> {
        let mut n = setting.h;
        for rounds in 0..=ROUNDS {
            self.ask(n)?;
            self.seen.read(self.challenge, &self.row, n)?;
            let counts = self.seen.count(setting);
            ensure!(counts == Counts::of(setting, rounds), "a wrong count");
            n = setting.k;
        }
        Ok(())
    }
}

// Challenges a policy, and tells the counts after the last round, or where it stopped.
pub fn challenge<P: WithCapacity + Drop>(
    rt: &HostRuntime,
    name: &str,
    setting: Setting,
) -> anyhow::Result<()> {
    let Setting { k, h, .. } = setting;
    let heap = rt.alloc();
    let row = [0; 3 * PLACES + 1];
    let mut run = Run {
        keeper: P::with_capacity(heap, k)?,
        challenge: Challenge::begin(k, h, &row)?,
        row,
        seen: Seen::new(heap),
    };
    let played = run.play(setting);
    let counts = run.seen.count(setting);
    println!(rt; "{name} {setting}: {counts}")?;
    if played.is_err() {
        rt.println(
            "DIFFERS: that is where it stopped, at a wrong count, a cache that breaks the rules, or a refusal",
        )?;
    }
    played
}
