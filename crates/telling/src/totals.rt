// What a challenge comes to.
ghost use Rattle.std.specs.Prelude.{◌≡◌, ℕ, ◌^◌, ◌<◌, ◌≤◌};
ghost use Rattle.paging.specs.Policies.{Policy, Obeys};
ghost use Rattle.telling.specs.Told.{totals_of, Totalled};

use trace::Totals;

// The counts at the end of so many rounds, against every policy with k places that obeys the rules, beside a schedule with h.
pub fn count(k: usize, h: usize, rounds: usize) -> Totals
    requires low { 1 ≤ h }
    requires within { h ≤ k }
    requires high { k ≤ 4096 }
    requires few { rounds < 2 ^ 32 }
    ensures value { result ≡ totals_of k h rounds }
    ensures totalled { (policy : Policy) → Obeys k policy → Totalled k h rounds result policy }
{
    let asked = (h + rounds * k) as u64;
    let rival = (h + rounds * (k + 1 - h)) as u64;
    Totals {
        asked,
        keeper: asked,
        rival,
    }
}
