//! Which sections were ever opened.

ghost use Rattle.std.specs.Prelude.{◌≡◌, ◌⊎◌, ◌↔◌, IsTrue, IfOk, OnOk, OnErr};
ghost use Rattle.rcu_model.specs.declared.event.SectionId.{SectionId};
ghost use Rattle.rcu_judge.specs.Seen.{WasSeen};

use number_runs::NumberRuns;
use rcu_model::SectionId;
use std::alloc::{AllocError, Global};
use std::collections::HashMap;

/// The sections that were ever opened: of each reader their ordinals, as runs of consecutive ones.
#[derive(Drop)]
pub(crate) struct SeenSections {
    alloc: Global,
    readers: HashMap<u32, NumberRuns>,
}

impl SeenSections {
    /// None was opened.
    pub(crate) fn new(alloc: Global) -> Self
        ensures { (s : SectionId) → ¬ WasSeen result s }
    {
        SeenSections {
            alloc,
            readers: HashMap::new(alloc),
        }
    }

    /// One more section was opened: whether it was not before.
    ///
    /// # Errors
    /// `AllocError` where memory was refused; then what was seen stays.
    pub(crate) fn insert(&mut self, section: SectionId) -> Result<bool, AllocError>
        ensures new { IfOk result (λ new. IsTrue new ↔ ¬ WasSeen self.old section) }
        ensures put { OnOk result ((s : SectionId) → WasSeen self.new s ↔ ((section ≡ s) ⊎ WasSeen self.old s)) }
        ensures refused { OnErr result ((s : SectionId) → WasSeen self.new s ↔ WasSeen self.old s) }
    {
        if let Some(ordinals) = self.readers.get_mut(&section.reader) {
            let new = ordinals.insert(section.ordinal)?;
            return Ok(new);
        }
        let mut ordinals = NumberRuns::new(self.alloc);
        ordinals.insert(section.ordinal)?;
        self.readers.insert(section.reader, ordinals)?;
        Ok(true)
    }
}
