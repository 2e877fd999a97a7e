// Requests of a policy, each with its line.
ghost use Rattle.std.specs.Prelude.{◌≡◌, [], ◌∷◌, ◌++◌, IfOk, IfErr, Some, string_bytes};
ghost use Rattle.adversary.specs.Runs.{Led};
ghost use Rattle.adversary.specs.Steps.{refusal_in, if_long, Stepped};
ghost use Rattle.trace.specs.Lines.{line_bytes};
ghost use Rattle.telling.specs.Told.{said};
ghost use Rattle.contest.specs.Contest.{Told, Refused, Halted};

use adversary::{Challenge, ask};
use lru_cache::Stop;
use policies::Policy;
use telling::tell;

// One request, whose line is added to the text. Policy, challenge and row are lent beside each other, here and in what follows, for the reason
// in runs/src/whole.rt.
fn turn<P: Policy>(
    keeper: &mut P,
    challenge: Challenge,
    row: &mut [u64],
    text: &mut String,
) -> Result<Challenge, Stop>
    ensures stepped { IfOk result (λ c. Stepped challenge row.old (P.policy keeper.old []) c row.new) }
    ensures served { IfOk result (λ c. Led (P.policy keeper.old) (c.last ∷ []) (P.policy keeper.new)) }
    ensures line { IfOk result (λ c. string_bytes text.new ≡ string_bytes text.old ++ (line_bytes (said c.last (P.policy keeper.old []) (P.policy keeper.new [])) ++ (10 ∷ []))) }
    ensures refused { IfErr result (λ s. Refused s (λ e. if_long challenge row.old (refusal_in challenge row.old (P.policy keeper.old [])) ≡ Some e)) }
    ensures same { IfErr result (λ s. Refused s (λ _. (row.new ≡ row.old) × (keeper.new ≡ keeper.old) × (text.new ≡ text.old))) }
{
    let next = ask(keeper, challenge, row)?;
    writeln!(
        text,
        "{}",
        tell(next.page(), next.before(row), keeper.shown())
    )?;
    Ok(next)
}

// Makes n requests, and adds their lines to the text. The turn has a name for the invariant, which counts by it.
pub fn play<P: Policy>(
    keeper: &mut P,
    challenge: Challenge,
    row: &mut [u64],
    n: usize,
    text: &mut String,
) -> Result<Challenge, Stop>
    ensures told { IfOk result (λ c. Told (P.policy keeper.old) n challenge row.old (string_bytes text.old) (P.policy keeper.new) c row.new (string_bytes text.new)) }
    ensures refused { IfErr result (λ s. Refused s (λ e. Halted (P.policy keeper.old) n challenge row.old (string_bytes text.old) e (P.policy keeper.new) row.new (string_bytes text.new))) }
{
    let mut current = challenge;
    for _turn in 0..n {
        current = turn(keeper, current, row, text)?;
    }
    Ok(current)
}
