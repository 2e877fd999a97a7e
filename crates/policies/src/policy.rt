// What the adversary sees of a policy.
ghost use Rattle.std.specs.Prelude.{◌≡◌, ℕ, List, true, [], ◌∷◌, ◌++◌, IfOk, IfErr, OnOk};
ghost use Rattle.paging.specs.Rules.{Proper};
ghost use Rattle.policies.specs.Onward.{is_capacity, unmade};

use lru_cache::Stop;
use std::alloc::Global;

// A policy's cache follows from the requests so far. Nothing is asked of how it chooses, nor that it keeps the rules of a cache: that is
// tested while it runs.
pub trait Policy {
    // what stands in its cache after further requests, the latest first
    ghost policy: { Self → List ℕ → List ℕ };

    // What stands in its cache now.
    fn shown(&self) -> &[u64]
        ensures value { result.now ≡ policy self.now [] };

    // One request.
    fn serve(&mut self, page: u64)
        ensures after { (further : List ℕ) → policy self.new further ≡ policy self.old (further ++ page ∷ []) };
}

// A policy that can be given any number of places, and keeps the rules of a cache of so many.
pub trait WithCapacity: Policy + Sized {
    // An empty cache of k places, where k is a capacity. It forwards to `new` of each policy, which says what policy that is: here stands
    // what every policy keeps.
    fn with_capacity(heap: Global, k: usize) -> Result<Self, Stop>
        ensures cases { IfOk result (λ s. Proper k (Self.policy s)) }
        ensures fits { OnOk result (is_capacity k ≡ true) }
        ensures refused { IfErr result (λ e. e ≡ unmade k) };
}
