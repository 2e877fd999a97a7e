// What no online policy can do better, whatever its rule.
ghost use Rattle.paging.specs.Guarded.{ObeysKept, GuardedObeys, GuardedSame, KeptCounts};
ghost use Rattle.paging.specs.LowerBound.{NoPolicyBeats, ExactCounts};
ghost use Rattle.paging.specs.Stepwise.{PlaysExactly, StaysBounded};
ghost use Rattle.paging.specs.WorkedRounds.{WorkedRounds};

// For every policy with k places there are traces of any length that it fetches whole, beside a schedule with h places that fetches
// about (k - h + 1) / k of them.
pub fn no_policy_beats_stands()
    ensures { NoPolicyBeats }
{}

// After the adversary's opening and m rounds: h + m k requests, each fetched by the policy, and h + m (k - h + 1) by the schedule.
pub fn exact_counts_stands()
    ensures { ExactCounts }
{}

// Played one request at a time the adversary requests exactly that, against any policy, and holds the schedule's list at ends of rounds.
pub fn plays_exactly_stands()
    ensures { PlaysExactly }
{}

// What the adversary holds in between: how long its lists get, and that no page in them is new.
pub fn stays_bounded_stands()
    ensures { StaysBounded }
{}

// A policy that obeys the rules keeps them in every run. Whatever a policy does, its guarded one obeys them, and shows the same along a
// run in which the policy kept them.
pub fn guarded_stands()
    ensures kept { ObeysKept }
    ensures obeys { GuardedObeys }
    ensures same { GuardedSame }
{}

// A policy that kept the rules in its run against the adversary is counted out as one that always obeys them.
pub fn kept_counts_stands()
    ensures { KeptCounts }
{}

// Two runs of the adversary counted out.
pub fn worked_rounds_stands()
    ensures { WorkedRounds }
{}
