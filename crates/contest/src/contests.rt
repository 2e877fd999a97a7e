// A whole challenge, written in large pieces.
ghost use Rattle.std.specs.Prelude.{◌≡◌, [], length, IfOk, Some, MatchResult, string_bytes, OnOk};
ghost use Rattle.adversary.specs.Begins.{Begun, unfit};
ghost use Rattle.telling.specs.Told.{totals_of};
ghost use Rattle.contest.specs.Contest.{Turned, Ended, last_line};

use crate::faults::Fault;
use crate::turns::play;
use adversary::{Challenge, row_len};
use fifo::Fifo;
use least_requested::LeastRequested;
use lru_cache::Refusal;
use policies::{Lru, Policy, WithCapacity};
use runs::run;
use std::alloc::Global;
use std::io::Write;
use telling::count;
use trace::{Detail, PolicyKind, Settings, Totals};

// How many requests are told before their lines are written.
const PIECE: usize = 4096;

// A challenge that is told, and where to.
#[derive(Drop)]
struct Teller<W> {
    heap: Global,
    detail: Detail,
    out: W,
    // the lines that are not written yet
    text: String,
}

// A challenge of the settings' places, before its first request.
fn begin(settings: Settings, row: &[u64]) -> Result<Challenge, Refusal>
    ensures cases { MatchResult result (λ c. Begun settings.capacity settings.places row.now c) (λ e. unfit settings.capacity settings.places (length row.now) ≡ Some e) }
{
    Challenge::begin(
        usize::from(settings.capacity),
        usize::from(settings.places),
        row,
    )
}

impl<W: Write + Drop> Teller<W> {
    // Writes the text, and empties it.
    fn write_out(&mut self) -> Result<(), Fault>
        ensures empty { OnOk result (string_bytes self.new.text ≡ []) }
    {
        self.out.write_all(self.text.as_bytes())?;
        self.text.clear();
        Ok(())
    }

    // Makes n requests, and writes their lines piece by piece. What was told is written also where the challenge is refused then.
    fn play_out<P: Policy>(
        &mut self,
        keeper: &mut P,
        challenge: Challenge,
        row: &mut [u64],
        n: usize,
    ) -> Result<Challenge, Fault>
        ensures turned { IfOk result (λ c. Turned (P.policy keeper.old) n challenge row.old (P.policy keeper.new) c row.new) }
    {
        let mut current = challenge;
        for from in (0..n).step_by(PIECE) {
            let some = PIECE.min(n - from);
            let played = play(keeper, current, row, some, &mut self.text);
            self.write_out()?;
            current = played?;
        }
        Ok(current)
    }

    // Challenges a policy as `run` does, with a line for each request.
    fn run_told<P: Policy>(
        &mut self,
        keeper: &mut P,
        settings: Settings,
        row: &mut [u64],
    ) -> Result<Totals, Fault>
        ensures ended { IfOk result (Ended settings (P.policy keeper.old) (P.policy keeper.new)) }
    {
        let k = usize::from(settings.capacity);
        let h = usize::from(settings.places);
        let rounds = usize::from(settings.rounds);
        let begun = begin(settings, row)?;
        let ended = self.play_out(keeper, begun, row, h + rounds * k)?;
        ended.accept(row, keeper.shown())?;
        Ok(count(k, h, rounds))
    }

    // The same without the lines.
    fn run_quiet<P: Policy>(
        keeper: &mut P,
        settings: Settings,
        row: &mut [u64],
    ) -> Result<Totals, Fault>
        ensures ended { IfOk result (Ended settings (P.policy keeper.old) (P.policy keeper.new)) }
    {
        let k = usize::from(settings.capacity);
        let h = usize::from(settings.places);
        let ran = run(keeper, k, h, u32::from(settings.rounds), row);
        Ok(ran.map_err(|stopped| stopped.refusal)?)
    }

    // Challenges a policy with as many places as the settings say.
    fn challenge<P: Policy>(&mut self, keeper: &mut P, settings: Settings) -> Result<Totals, Fault>
        ensures ended { IfOk result (Ended settings (P.policy keeper.old) (P.policy keeper.new)) }
    {
        let len = row_len(usize::from(settings.capacity)).ok_or(Refusal::NoCache)?;
        let mut row = vec![in self.heap; 0u64; len]?;
        match self.detail {
            Detail::Requests => self.run_told(keeper, settings, &mut row),
            Detail::Summary => Self::run_quiet(keeper, settings, &mut row),
        }
    }

    // A policy of that kind, challenged.
    fn challenge_new<P: WithCapacity + Drop>(&mut self, settings: Settings) -> Result<Totals, Fault>
        ensures totals { IfOk result (λ t. t ≡ totals_of settings.capacity settings.places settings.rounds) }
    {
        let mut keeper = P::with_capacity(self.heap, usize::from(settings.capacity))?;
        self.challenge(&mut keeper, settings)
    }

    // The policy that the settings name, challenged. The match stands here and in `ffi`: a policy is a type parameter, and no function hands a
    // type out.
    fn challenge_named(&mut self, settings: Settings) -> Result<Totals, Fault>
        ensures totals { IfOk result (λ t. t ≡ totals_of settings.capacity settings.places settings.rounds) }
    {
        match PolicyKind::try_from(settings.policy)? {
            PolicyKind::Lru => self.challenge_new::<Lru>(settings),
            PolicyKind::Fifo => self.challenge_new::<Fifo>(settings),
            PolicyKind::LeastRequested => self.challenge_new::<LeastRequested>(settings),
        }
    }

    // Writes the last line, which the text then holds: the counts, or why the challenge is refused.
    fn tell_end(&mut self, ended: Result<Totals, Fault>) -> Result<(), Fault>
        ensures line { OnOk result (string_bytes self.new.text ≡ last_line ended) }
    {
        self.text.clear();
        match ended {
            Ok(totals) => writeln!(self.text, "{totals}")?,
            Err(Fault::Refused(refusal)) => writeln!(self.text, "{refusal}")?,
            Err(fault) => return Err(fault),
        }
        self.out.write_all(self.text.as_bytes())?;
        Ok(())
    }
}

// Challenges the policy that the settings name, and writes a line for each request where these are wanted, and one for the counts at the end,
// or one that says why it is refused.
pub fn contest_told<W: Write>(
    heap: Global,
    settings: Settings,
    detail: Detail,
    out: &mut W,
) -> Result<(), Fault> {
    let mut teller = Teller {
        heap,
        detail,
        out,
        text: String::new(heap),
    };
    let ended = teller.challenge_named(settings);
    teller.tell_end(ended)
}

// Challenges the policy that the settings name, and writes a line for each request and one for the counts at the end, or one that says why
// it is refused. It is public, so it stays beside `contest_told`.
pub fn contest<W: Write>(heap: Global, settings: Settings, out: &mut W) -> Result<(), Fault> {
    contest_told(heap, settings, Detail::Requests, out)
}
