#![tactic(auto)]
//! Tests of the crates below a domain by their public faces.

#[cfg(test)]
mod chains;
#[cfg(test)]
mod grace_periods;
#[cfg(test)]
mod keyed;
#[cfg(test)]
mod plain;
#[cfg(test)]
mod queues;
#[cfg(test)]
mod readers;
#[cfg(test)]
mod records;
#[cfg(test)]
mod registering;
#[cfg(test)]
mod words;
#[cfg(test)]
mod writers;
