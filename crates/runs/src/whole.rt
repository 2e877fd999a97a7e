// A whole run against a policy, whatever it does: the rules are tested while it runs.
ghost use Rattle.std.specs.Prelude.{◌≡◌, suc, ◌+◌, ◌-◌, ◌*◌, ◌^◌, ◌<◌, ◌≤◌, true, [], ◌∷◌, length, drop, is_ok, IfOk, IfErr, Some, None, MatchOption, OnOk};
ghost use Rattle.paging.specs.Rules.{Proper};
ghost use Rattle.adversary.specs.Begins.{unfit};
ghost use Rattle.adversary.specs.Runs.{Led};
ghost use Rattle.runs.specs.Runs.{played, Against, Halted};
ghost use Rattle.runs.specs.Whole.{Ran, Broke};

use crate::stopped::Stopped;
use adversary::{Challenge, ask};
use policies::Policy;
use telling::count;
use trace::Totals;

// Asks for as many pages as are wanted, one after the other, from the beginning on. Policy, challenge and row are named in each clause: of
// what a struct over what is lent has written, nothing is known once it is let go. The loop counts, since the count is told.
fn ask_all<P: Policy>(
    keeper: &mut P,
    mut challenge: Challenge,
    row: &mut [u64],
    requests: u64,
) -> Result<Challenge, Stopped>
    requires begun { Against challenge.k challenge.h (P.policy keeper.old) 0 challenge row.old }
    ensures against { IfOk result (λ c. Against challenge.k challenge.h (P.policy keeper.old) requests c row.new) }
    ensures led { OnOk result (Led (P.policy keeper.old) (played challenge.k challenge.h (P.policy keeper.old) requests).history (P.policy keeper.new)) }
    ensures far { IfErr result (λ s. s.after < requests) }
    ensures halted { IfErr result (λ s. Halted challenge.k challenge.h (P.policy keeper.old) s.after s.refusal row.new (P.policy keeper.new)) }
    ensures beyond { drop (3 * challenge.k + 1) row.new ≡ drop (3 * challenge.k + 1) row.old }
{
    for n in 0..requests {
        challenge = ask(keeper, challenge, row).map_err(|refusal| Stopped { after: n, refusal })?;
    }
    Ok(challenge)
}

// The opening and the rounds from the beginning on, and the test after the last request.
fn run_on<P: Policy>(
    keeper: &mut P,
    challenge: Challenge,
    rounds: u32,
    row: &mut [u64],
) -> Result<Totals, Stopped>
    requires begun { Against challenge.k challenge.h (P.policy keeper.old) 0 challenge row.old }
    ensures ran { IfOk result (λ s. Ran challenge.k challenge.h (P.policy keeper.old) rounds s row.new (P.policy keeper.new)) }
    ensures broke { IfErr result (λ s. Broke challenge.k challenge.h (P.policy keeper.old) rounds s row.new (P.policy keeper.new)) }
    ensures beyond { drop (3 * challenge.k + 1) row.new ≡ drop (3 * challenge.k + 1) row.old }
{
    let totals = count(challenge.k, challenge.h, rounds as usize);
    let end = ask_all(keeper, challenge, row, totals.asked)?;
    end.accept(row, keeper.shown()).map_err(|refusal| Stopped {
        after: totals.asked,
        refusal,
    })?;
    Ok(totals)
}

// Challenges a policy with k places beside a schedule with h: the opening and as many rounds. Nothing is asked of the policy, and the row
// may hold anything. Where k is no capacity, h is 0 or above k, or the row is too short for k, nothing is changed. A policy that keeps the
// rules is counted out as long as the pages last.
pub fn run<P: Policy>(
    keeper: &mut P,
    k: usize,
    h: usize,
    rounds: u32,
    row: &mut [u64],
) -> Result<Totals, Stopped>
    ensures ran { IfOk result (λ s. Ran k h (P.policy keeper.old) rounds s row.new (P.policy keeper.new)) }
    ensures refused { IfErr result (λ s. MatchOption (unfit k h (length row.old)) (Broke k h (P.policy keeper.old) rounds s row.new (P.policy keeper.new)) (λ e. (s.refusal ≡ e) × (s.after ≡ 0) × (row.new ≡ row.old) × (keeper.new ≡ keeper.old))) }
    ensures beyond { drop (3 * k + 1) row.new ≡ drop (3 * k + 1) row.old }
    ensures proper { unfit k h (length row.old) ≡ None → Proper k (P.policy keeper.old) → h + rounds * (suc k - h) < 2 ^ 32 → is_ok result ≡ true }
{
    let challenge = Challenge::begin(k, h, row).map_err(|refusal| Stopped { after: 0, refusal })?;
    run_on(keeper, challenge, rounds, row)
}
