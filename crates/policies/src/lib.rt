// Online policies: each keeps a cache without knowing what will be requested. What a policy is to the adversary is the trait `Policy`;
// LRU is behind it here, and others in crates of their own.
#![tactic(auto)]

mod policy;
mod recent;

pub use policy::{Policy, WithCapacity};
pub use recent::Lru;
