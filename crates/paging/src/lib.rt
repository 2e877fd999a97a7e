// What is claimed about paging, and its proofs. No code: each function below says by its contract that a theorem of specs/ holds, and
// its file in proofs/ cites the lemma that shows it.
#![tactic(auto)]

ghost use Rattle.paging.specs.Claims.{Competitive, CompetitiveFrom, Inclusion, Recency, Split, FewPages, ColdFetches, Compulsory, Retained};
ghost use Rattle.paging.specs.Claims.{StackDistance, BeladyLeast, BeladyFeasible, AnyFurthest, BeladyFewest, OnePass};
ghost use Rattle.paging.specs.Worked.{Worked};

// LRU with k places fetches at most k / (k - h + 1) times what any schedule with h places fetches, both from empty caches.
pub fn competitive_stands()
    ensures { Competitive }
{}

// The same from any two caches, where the pages that the schedule begins with count as fetched.
pub fn competitive_from_stands()
    ensures { CompetitiveFrom }
{}

// More places never fetch more: the smaller LRU cache is the beginning of the larger one.
pub fn inclusion_stands()
    ensures { Inclusion }
{}

// An LRU cache holds the pages requested last, each once, at most as many as it has places.
pub fn recency_stands()
    ensures { Recency }
{}

// The fetches of two parts of a trace add up, and the second costs no more than from an empty cache.
pub fn split_stands()
    ensures { Split }
{}

// LRU fetches each page at most once in a stretch with at most k different pages.
pub fn few_pages_stands()
    ensures { FewPages }
{}

// Any schedule fetches each page of a stretch at least once that its cache lacks when the stretch begins.
pub fn cold_fetches_stands()
    ensures { ColdFetches }
{}

// From an empty cache LRU fetches each page of a trace at least once.
pub fn compulsory_stands()
    ensures { Compulsory }
{}

// LRU keeps a page while fewer than k different pages are requested after it.
pub fn retained_stands()
    ensures { Retained }
{}

// One stack of the pages requested last tells for every capacity which requests LRU fetches.
pub fn stack_distance_stands()
    ensures { StackDistance }
{}

// Belady's rule fetches no more than any schedule with as many places.
pub fn belady_least_stands()
    ensures { BeladyLeast }
{}

// Belady's rule makes a schedule itself.
pub fn belady_feasible_stands()
    ensures { BeladyFeasible }
{}

// It does not matter which page goes of several whose next use is furthest.
pub fn any_furthest_stands()
    ensures { AnyFurthest }
{}

// What Belady's rule fetches is the offline optimum: some schedule fetches so many, and none fewer.
pub fn fewest_stands()
    ensures { BeladyFewest }
{}

// One sifted row tells for every capacity how many requests the offline optimum fetches.
pub fn one_pass_stands()
    ensures { OnePass }
{}

// What LRU and Belady's rule do on two traces, counted out, and how they compare with schedules there.
pub fn worked_stands()
    ensures { Worked }
{}

pub mod failing;
pub mod lower_bound;
pub mod rules;
