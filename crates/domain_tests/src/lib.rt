#![tactic(auto)]
//! Tests of a domain by its public face, also under threads.

#[cfg(test)]
mod deleter;
#[cfg(test)]
mod plain;
#[cfg(test)]
mod polling;
#[cfg(test)]
mod readings;
#[cfg(test)]
mod reclaiming;
#[cfg(test)]
mod seeing;
#[cfg(test)]
mod threads;
