#![tactic(auto)]
//! Tests of the crates that stand on no threads, by their public faces: of what no line of text can show. The others
//! are rows (`tests/README.md`).

#[cfg(test)]
mod commands;
#[cfg(test)]
mod cookies;
#[cfg(test)]
mod judges;
#[cfg(test)]
mod logs;
#[cfg(test)]
mod plans_of_numbers;
#[cfg(test)]
mod plans_of_phases;
#[cfg(test)]
mod queues;
#[cfg(test)]
mod reader_words;
#[cfg(test)]
mod schedules;
#[cfg(test)]
mod slots;
#[cfg(test)]
mod workers;
#[cfg(test)]
mod worlds;
