//! Callbacks without a box: an enum of the program's own says what is done with a reclaimed record.

use rcu::{AnyChain, Deleter, Domain, Handle, Memb, Program, Refusal, Ripe, Site};
use std::alloc::Global;
use std::sync::Wait;

/// What is done with a record that nobody reads any more.
#[derive(Drop)]
pub(crate) enum OnReclaim {
    /// Its first word is a size in bytes, which is free again.
    Free,
    /// Its second word is a handle of the system's, which is closed.
    Close,
}

impl Deleter for OnReclaim {
    ghost use Rattle.std.specs.Prelude.{◌≡◌, slice_index};
    ghost use Rattle.examples.specs.declared.callbacks.OnReclaim.TheVariants.{Close, Free};

    ghost answers = { elim [ Free ↦ λ ripe code. code ≡ slice_index ripe.payload 0 | Close ↦ λ ripe code. code ≡ slice_index ripe.payload 1 ] };

    fn call(self, ripe: Ripe) -> u64 {
        let [size, file, _, _] = ripe.payload;
        match self {
            OnReclaim::Free => size,
            OnReclaim::Close => file,
        }
    }
}

/// Publishes two records, retires each with what is done with it then, and adds up what the callbacks answer.
#[derive(Drop)]
pub(crate) struct Files;

impl<R: Wait> Program<Memb, AnyChain, OnReclaim, R> for Files {
    type Out = Result<u64, Refusal>;

    fn run<B: Site>(
        self,
        rt: &R,
        alloc: Global,
        domain: &Domain<Memb, AnyChain, B, OnReclaim>,
        mut own: Handle<B>,
    ) -> Result<u64, Refusal> {
        let mut writer = domain.chain(&mut own, 0)?;
        for (word, callback) in [(64, OnReclaim::Free), (3, OnReclaim::Close)] {
            let record = domain.alloc(rt, &mut own, [word, word, 0, 0])?;
            writer.push(&mut own, record);
            let retired = domain.cut_retire(rt, &mut own, &mut writer, 0, callback);
            retired.map_err(|refused| refused.0)?;
        }
        domain.close(rt, &mut own);
        let end = domain.run_worker(rt, alloc, &mut own, 0)?;
        let sum = end
            .finished
            .iter()
            .fold(0u64, |sum, entry| sum.saturating_add(entry.code));
        Ok(sum)
    }
}
