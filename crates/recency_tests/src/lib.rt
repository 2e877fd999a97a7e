// Tests of recency that run: days with what must come of them, and days beside the plain way to keep the same order.
#![tactic(auto)]

#[cfg(test)]
mod days;
#[cfg(test)]
mod plain;
#[cfg(test)]
mod tests;
