//! A grace period, one step at a time.

ghost use Rattle.std.specs.Prelude.{◌≡◌, ◌≢◌, ◌≤◌, ◌<◌, ◌^◌, ◌*◌, ◌%◌, ℕ, Bool, true, false, List};
ghost use Rattle.reader_word.specs.declared.layout.Layout.{Layout};
ghost use Rattle.reader_word.specs.declared.layout.Layout.TheVariants.{Wide};
ghost use Rattle.gp_memb.specs.declared.plan.Action.{Action};
ghost use Rattle.gp_memb.specs.declared.plan.Action.TheVariants.{Load, LoadGroup, StorePhase};
ghost use Rattle.gp_memb.specs.declared.plan.Turn.{Turn};
ghost use Rattle.gp_memb.specs.declared.plan.Turn.TheVariants.{Wait};
ghost use Rattle.gp_memb.specs.Plan.{turn_at, present_after, after_loads, StoresInOrder, WaitsForOpen, IsPresent, MayStore};

/// What a plan does next.
#[derive(Clone, Copy, Debug, PartialEq, Eq, Drop)]
pub enum Action {
    /// The word of this slot is to be loaded.
    Load(usize),
    /// The word of this group of 64 slots is to be loaded, in which the bit of each claimed slot is set.
    LoadGroup(usize),
    /// The phase, or in the quiescent-state flavour the number, is to be stored.
    StorePhase(u64),
    /// The sequence number is to be stored.
    StoreSeq(u64),
    /// The grace period is over, and nothing is left to do.
    Finished,
}

/// What came of an action.
#[derive(Clone, Copy, Debug, PartialEq, Eq, Drop)]
pub enum Turn {
    /// The plan went on.
    Step,
    /// The loaded word stands in the way, and the plan is as it was.
    Wait,
}

/// The steps of a grace period: what to load and store next, until every section that was open at the first store has
/// ended.
pub trait GracePlan: Sized {
    /// Whether the plan is of the quiescent-state flavour, so that it stores a number and no phase.
    ghost QSBR: { Bool };

    /// The same, as code reads it: clauses name the ghost item.
    const QSBR: bool;

    /// A plan that has done nothing yet: of this layout, grouped or not, and made with this number of slots, sequence
    /// number, and phase or number.
    ghost is_begun: { Layout → Bool → ℕ → ℕ → ℕ → Self → Type 0 };

    /// What a plan does next.
    ghost action: { Self → Action };

    /// Whether the plan goes on or waits, by the word that was loaded.
    ghost turn: { Self → ℕ → Turn };

    /// What it is after that.
    ghost taken: { Self → ℕ → Self };

    /// The layout of the words that it loads.
    ghost layout_of: { Self → Layout };

    /// The phase or number that it stored last, or else was made with.
    ghost present: { Self → ℕ };

    /// A grouped plan over wide words, for the present sequence number and the present phase (0 or 1) or number.
    fn start(slots: usize, seq: u64, word: u64) -> Self
        requires even { seq % 2 ≡ 0 }
        requires seq { seq ≤ 2 ^ 62 }
        requires word { word ≤ 2 ^ 62 }
        ensures { is_begun Wide true slots seq word result };

    /// The next action.
    fn next(&self) -> Action
        ensures { result ≡ action self.now };

    /// Tells the plan that its action is done, and what was loaded; a store ignores `loaded`.
    fn take(&mut self, loaded: u64) -> Turn
        ensures turn { result ≡ turn self.old loaded }
        ensures taken { self.new ≡ taken self.old loaded };

    /// The grace-period law: while a section stays open that was open at the first store, the plan is not finished.
    ghost waits: { (layout : Layout) (grouped : Bool) (slots seq word : ℕ) (plan : Self) → is_begun layout grouped slots seq word plan → WaitsForOpen QSBR action taken layout slots word plan };

    /// The first turn stores the next sequence number, the last one the number after that, and no other stores one.
    ghost order: { (layout : Layout) (grouped : Bool) (slots seq word : ℕ) (plan : Self) → is_begun layout grouped slots seq word plan → StoresInOrder action taken seq plan };

    /// Only slots that are there are loaded.
    ghost in_range: { (layout : Layout) (grouped : Bool) (slots seq word : ℕ) (plan : Self) → is_begun layout grouped slots seq word plan → (loads : List ℕ) (slot : ℕ) → action (after_loads taken plan loads) ≡ Load slot → slot < slots };

    /// So are only groups that have a slot.
    ghost in_groups: { (layout : Layout) (grouped : Bool) (slots seq word : ℕ) (plan : Self) → is_begun layout grouped slots seq word plan → (loads : List ℕ) (group : ℕ) → action (after_loads taken plan loads) ≡ LoadGroup group → 64 * group < slots };

    /// What is stored as a phase is one, and as a number the next one.
    ghost stores: { (layout : Layout) (grouped : Bool) (slots seq word : ℕ) (plan : Self) → is_begun layout grouped slots seq word plan → (loads : List ℕ) (value : ℕ) → action (after_loads taken plan loads) ≡ StorePhase value → MayStore QSBR word value };

    /// At the start nothing was stored yet.
    ghost begins: { (layout : Layout) (grouped : Bool) (slots seq word : ℕ) (plan : Self) → is_begun layout grouped slots seq word plan → IsPresent QSBR word → present plan ≡ word };

    /// A plan of the general-purpose flavour is for words of the layout that it was made for.
    ghost begins_layout: { (layout : Layout) (grouped : Bool) (slots seq word : ℕ) (plan : Self) → is_begun layout grouped slots seq word plan → QSBR ≡ false → layout_of plan ≡ layout };

    /// A turn waits exactly where it loaded a word that stands in the way.
    ghost exact: { (plan : Self) (word : ℕ) → turn plan word ≡ turn_at QSBR (layout_of plan) (present plan) (action plan) word };

    /// A turn that waits leaves the plan as it was.
    ghost still: { (plan : Self) (word : ℕ) → turn plan word ≡ Wait → taken plan word ≡ plan };

    /// An action that is no load ignores the loaded word.
    ghost ignores: { (plan : Self) (a b : ℕ) → ((slot : ℕ) → action plan ≢ Load slot) → ((group : ℕ) → action plan ≢ LoadGroup group) → taken plan a ≡ taken plan b };

    /// The present phase or number is what was stored last.
    ghost presents: { (plan : Self) (word : ℕ) → present (taken plan word) ≡ present_after (present plan) (action plan) };

    /// A stored number is no less than the present one.
    ghost rises: { (plan : Self) (value : ℕ) → QSBR ≡ true → action plan ≡ StorePhase value → present plan ≤ value };

    /// It stays so.
    ghost keeps_layout: { (plan : Self) (word : ℕ) → layout_of (taken plan word) ≡ layout_of plan };
}
