#![tactic(auto)]
//! The library for C: RCU of both flavours (readers, registering, and grace periods step by step), where no call waits;
//! and the judge (`c/include/robiniagolf/judge.h`): a handle that takes the pieces of a text of answers, and tells at
//! each moment whether the log that it tells is a run of the abstract machine.

mod c_handles;
mod exports;
mod handle;
mod handle_forms;
mod kept;
mod memb_calls;
mod qsbr_calls;
mod verdict;
