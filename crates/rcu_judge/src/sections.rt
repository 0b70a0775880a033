//! The sections of a log: which were ever opened, and which are open.

ghost use Rattle.std.specs.Prelude.{◌≡◌, ◌<◌, ◌↔◌, [], List, IsTrue, IfOk, OnOk, OnErr};
ghost use Rattle.indexmap.specs.IndexMap.{spare};
ghost use Rattle.rcu_model.specs.declared.event.SectionId.{SectionId};
ghost use Rattle.rcu_model.specs.Sets.{HasSection};
ghost use Rattle.rcu_judge.specs.Sections.{AreSections, AwaitsSections, Opens, Closes, StaySections};

use crate::roster::{FEW, Kept, first_present};
use crate::seen::SeenSections;
use indexmap::IndexMap;
use rcu_model::SectionId;
use std::alloc::{AllocError, Global};

/// The sections that were ever opened, and those that are open, each with its place in the order of opening. Memory is
/// linear in the greatest number of those that were open at once: beside that, those that are closed take next to none
/// where ordinals count up.
#[derive(Drop)]
pub(crate) struct Sections {
    seen: SeenSections,
    // How many were opened.
    opened: usize,
    // Those that are open, in the order of opening, and some that were closed.
    kept: IndexMap<SectionId, Kept>,
    // The index of the first one kept that is open, or the number of those kept.
    oldest: usize,
    // How many of those that are kept were closed.
    closed: usize,
}

impl Sections {
    /// None was opened.
    pub(crate) fn new(alloc: Global) -> Self
        ensures { AreSections result [] [] }
    {
        Sections {
            seen: SeenSections::new(alloc),
            opened: 0,
            kept: IndexMap::new(alloc),
            oldest: 0,
            closed: 0,
        }
    }

    /// Opens a section: false where it was opened before, and then the sections are of no more use.
    ///
    /// # Errors
    /// `AllocError` where memory was refused, or no number is left for the place; then the sections stay.
    pub(crate) fn open(&mut self, section: SectionId) -> Result<bool, AllocError>
        ensures opened { IfOk result (λ opened. (seen still : List SectionId) → AreSections self.old seen still → Opens self.old self.new seen still section opened) }
        ensures refused { OnErr result (StaySections self.old self.new) }
    {
        self.make_room()?;
        let place = self.opened;
        if place == usize::MAX {
            return Err(AllocError);
        }
        if !self.seen.insert(section)? {
            return Ok(false);
        }
        self.kept.insert(
            section,
            Kept {
                place,
                is_there: true,
            },
        )?;
        self.opened += 1;
        Ok(true)
    }

    // Makes room for one more.
    fn make_room(&mut self) -> Result<(), AllocError>
        ensures stay { StaySections self.old self.new }
        ensures room { OnOk result (0 < spare self.new.kept) }
    {
        self.drop_the_closed();
        self.kept.reserve(1)
    }

    // Drops those that were closed, where the table is full and they are most of it.
    #[tactic(auto, using(crate::proofs::SectionLemmas::stay_here))]
    fn drop_the_closed(&mut self)
        ensures { StaySections self.old self.new }
    {
        let kept = self.kept.len();
        if self.closed < FEW || self.closed <= kept / 2 || kept < self.kept.capacity() {
            return;
        }
        self.kept.retain(
            |_section: &SectionId, kept: &mut Kept| -> bool
                ensures { (result ≡ kept.old.is_there) × (kept.new ≡ kept.old) }
            { kept.is_there },
        );
        self.oldest = 0;
        self.closed = 0;
    }

    /// Closes a section: whether it was open.
    pub(crate) fn close(&mut self, section: SectionId) -> bool
        ensures { (seen still : List SectionId) → AreSections self.old seen still → Closes self.old self.new seen still section result }
    {
        let Some(at) = self.kept.get_index_of(&section) else {
            return false;
        };
        if !self.kept[at].is_there {
            return false;
        }
        self.kept[at].is_there = false;
        self.closed = self.closed.saturating_add(1);
        if at == self.oldest {
            self.oldest = first_present(self.kept.values().as_slice(), at);
        }
        true
    }

    /// Whether a section is open.
    pub(crate) fn is_open(&self, section: SectionId) -> bool
        ensures { (seen still : List SectionId) → AreSections self.now seen still → (IsTrue result ↔ HasSection still section) }
    {
        match self.kept.get(&section) {
            Some(kept) => kept.is_there,
            None => false,
        }
    }

    /// The moment from which on sections that open are not awaited.
    pub(crate) fn moment(&self) -> usize
        ensures { (seen still : List SectionId) → AreSections self.now seen still → AwaitsSections self.now still still result }
    {
        self.opened
    }

    /// Whether every section that was opened before the moment has been closed.
    pub(crate) fn all_closed(&self, moment: usize) -> bool
        ensures { (seen still awaited : List SectionId) → AreSections self.now seen still → AwaitsSections self.now still awaited moment → (IsTrue result ↔ (awaited ≡ [])) }
    {
        match self.kept.get_index(self.oldest) {
            Some((_, kept)) => moment <= kept.place,
            None => true,
        }
    }
}
