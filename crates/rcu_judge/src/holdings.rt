//! Which section got which object.

ghost use Rattle.std.specs.Prelude.{◌≡◌, ◌≢◌, ◌⊎◌, ◌↔◌, IsTrue, OnOk, OnErr};
ghost use Rattle.rcu_model.specs.declared.event.SectionId.{SectionId};
ghost use Rattle.rcu_model.specs.declared.event.ObjectId.{ObjectId};
ghost use Rattle.rcu_judge.specs.Holdings.{HasGot};

use rcu_model::{ObjectId, SectionId};
use std::alloc::{AllocError, Global};
use std::collections::{HashMap, HashSet};

/// What a section got.
#[derive(Drop)]
struct Got {
    newest: ObjectId,
    // Those that it got before, so that who gets one alone wants no table.
    older: HashSet<ObjectId>,
}

/// What each section got since it was opened, until it closes.
#[derive(Drop)]
pub(crate) struct Holdings {
    alloc: Global,
    got: HashMap<SectionId, Got>,
}

impl Holdings {
    /// No section got an object.
    pub(crate) fn new(alloc: Global) -> Self
        ensures { (s : SectionId) (o : ObjectId) → ¬ HasGot result s o }
    {
        Holdings {
            alloc,
            got: HashMap::new(alloc),
        }
    }

    /// The section gets one more object.
    ///
    /// # Errors
    /// `AllocError` where memory was refused.
    pub(crate) fn add(&mut self, section: SectionId, object: ObjectId) -> Result<(), AllocError>
        ensures got { OnOk result ((s : SectionId) (o : ObjectId) → HasGot self.new s o ↔ (HasGot self.old s o ⊎ ((section ≡ s) × (object ≡ o)))) }
        ensures refused { OnErr result ((s : SectionId) (o : ObjectId) → HasGot self.new s o ↔ HasGot self.old s o) }
    {
        if let Some(got) = self.got.get_mut(&section) {
            if got.newest != object {
                got.older.insert(got.newest)?;
                got.newest = object;
            }
            return Ok(());
        }
        let got = Got {
            newest: object,
            older: HashSet::new(self.alloc),
        };
        self.got.insert(section, got)?;
        Ok(())
    }

    /// The section closes: what it got is forgotten.
    pub(crate) fn forget(&mut self, section: SectionId)
        ensures { (s : SectionId) (o : ObjectId) → HasGot self.new s o ↔ (HasGot self.old s o × (section ≢ s)) }
    {
        self.got.remove(&section);
    }

    /// Whether the section got the object.
    pub(crate) fn has(&self, section: SectionId, object: ObjectId) -> bool
        ensures { IsTrue result ↔ HasGot self.now section object }
    {
        match self.got.get(&section) {
            Some(got) => got.newest == object || got.older.contains(&object),
            None => false,
        }
    }
}
