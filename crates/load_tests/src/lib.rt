#![tactic(auto)]
//! Tests of a domain under load that no run of `torture` shows: what ends it, what it refuses,
//! who hears of it, and which records its readers count.

#[cfg(test)]
mod mixed;
#[cfg(test)]
mod runs;
