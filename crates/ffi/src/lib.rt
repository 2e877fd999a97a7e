// The C boundary: the library's entry points as functions that C can call, on numbers and lent rows, each of which answers one number.
#![tactic(auto)]

mod caches;
mod challenges;
mod contests;
mod packs;
mod reports;
mod sides;
mod states;
