// Tests of lru_cache that run: each refusal at its edge, with every number of both rows compared afterwards, and days worked out.
#![tactic(auto)]

#[cfg(test)]
mod cases;
#[cfg(test)]
mod days;
#[cfg(test)]
mod lent;
#[cfg(test)]
mod refusals;
