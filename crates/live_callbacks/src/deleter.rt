//! What is called once an object is reclaimed.

use callback_queue::{Call, Callback, Ripe};

/// What is called, once, with an object that nobody reads any more: the deleter of [saferecl.rcu], liburcu's callback
/// of `call_rcu`. A program may take a boxed `Callback`, or a type of its own and box nothing.
///
/// A worker promises that it calls a deleter with each object that it runs, and tells that call's answer. What an
/// answer is, `answers` says; a type of one's own that leaves it out promises nothing of its answers.
pub trait Deleter: Drop {
    ghost use Rattle.std.specs.Prelude.{ℕ, ⊤};
    ghost use Rattle.callback_queue.specs.declared.item.Ripe.{Ripe};

    /// What it answers, called with an object and the words that were published with it.
    ghost answers: { Self → Ripe → ℕ → Type 0 } = { λ _ _ _. ⊤ };

    /// Called with no lock held. Answers a code, which the worker tells.
    fn call(self, ripe: Ripe) -> u64
        ensures { answers self ripe result };
}

impl Deleter for Callback {
    // What its boxed call answers.
    ghost answers = { λ c ripe code. post (c.call.vtable, c.call.value) ripe code };

    fn call(self, ripe: Ripe) -> u64 {
        (self.call)(ripe)
    }
}
