#![tactic(auto)]
//! Tests of keyed lists and hash tables by their public face, also under threads.

#[cfg(test)]
mod deleter;
#[cfg(test)]
mod growths;
#[cfg(test)]
mod lists;
#[cfg(test)]
mod looking;
#[cfg(test)]
mod plain;
#[cfg(test)]
mod sharing;
