// One request of a policy.
ghost use Rattle.std.specs.Prelude.{◌≡◌, [], ◌∷◌, IfOk, IfErr, Some, OnErr};
ghost use Rattle.adversary.specs.Runs.{Led};
ghost use Rattle.adversary.specs.Steps.{refusal_in, if_long, Stepped};

use crate::challenge::Challenge;
use lru_cache::Refusal;
use policies::Policy;

// Tests what the policy shows, and asks it for the next page, which is the `page` of the challenge handed on. Nothing is asked of the policy:
// where it broke the rules by what it shows, or there is no page left, it is refused and left alone.
pub fn ask<P: Policy>(
    keeper: &mut P,
    challenge: Challenge,
    row: &mut [u64],
) -> Result<Challenge, Refusal>
    ensures stepped { IfOk result (λ c. Stepped challenge row.old (P.policy keeper.old []) c row.new) }
    ensures served { IfOk result (λ c. Led (P.policy keeper.old) (c.last ∷ []) (P.policy keeper.new)) }
    ensures refused { IfErr result (λ e. if_long challenge row.old (refusal_in challenge row.old (P.policy keeper.old [])) ≡ Some e) }
    ensures same { OnErr result ((row.new ≡ row.old) × (keeper.new ≡ keeper.old)) }
{
    let next = challenge.step(row, keeper.shown())?;
    keeper.serve(next.page());
    Ok(next)
}
