//! The plans of a world.

ghost use Rattle.std.specs.Prelude.{◌≡◌, ◌≢◌, ◌≤◌, ◌^◌, ◌%◌, ◌==◌, ℕ, List, false, refl};
ghost use Rattle.gp_memb.specs.declared.plan.Action.TheVariants.{LoadGroup};
ghost use Rattle.gp_memb.specs.Plan.{after_loads, FinishesAfter, each_turn, turn_count};
ghost use Rattle.gp_memb.specs.Memb.{memb_begun};
ghost use Rattle.gp_memb.specs.lemmas.MembOrder.{memb_finishes, memb_loads_no_group};
ghost use Rattle.gp_qsbr.specs.Qsbr.{qsbr_begun};
ghost use Rattle.gp_qsbr.specs.lemmas.QsbrOrder.{qsbr_finishes, qsbr_loads_no_group};
ghost use Rattle.reader_word.specs.declared.layout.Layout.{Layout};

use gp_memb::{GracePlan, MembPlan};
use gp_qsbr::QsbrPlan;
use reader_word::Layout;

/// A plan that a world of either layout can make.
pub trait WorldPlan: GracePlan + Copy {
    /// The plan that `make` answers, of a layout, a number of slots, a sequence number and a phase or number.
    ghost made: { Layout → ℕ → ℕ → ℕ → Self };

    /// The plan of a grace period over this many slots, for words of this layout, with the present sequence number
    /// and phase (0 or 1) or number.
    fn make(layout: Layout, slots: usize, seq: u64, word: u64) -> Self
        requires even { seq % 2 ≡ 0 }
        requires seq { seq ≤ 2 ^ 62 }
        requires word { word ≤ 2 ^ 62 }
        ensures { result ≡ made layout slots seq word };

    /// What `make` answers is at its beginning, and not grouped: a world has no group words.
    ghost made_begun: { (layout : Layout) (slots seq word : ℕ) → Self.is_begun layout false slots seq word (made layout slots seq word) };

    /// So it loads none.
    ghost loads_no_group: { (layout : Layout) (slots seq word : ℕ) (plan : Self) → Self.is_begun layout false slots seq word plan → (loads : List ℕ) (group : ℕ) → Self.action (after_loads Self.taken plan loads) ≢ LoadGroup group };

    /// Over R slots, it is finished exactly when 2R + 4 of its turns were steps, or R + 3 in the quiescent-state
    /// flavour.
    ghost finishes: { (layout : Layout) (slots seq word : ℕ) → FinishesAfter Self.action Self.turn Self.taken each_turn (made layout slots seq word) (turn_count Self.QSBR slots) };
}

impl WorldPlan for MembPlan {
    ghost made = { λ layout slots seq word. memb_begun layout false slots seq (word == 1) };

    fn make(layout: Layout, slots: usize, seq: u64, word: u64) -> MembPlan {
        MembPlan::new(layout, slots, seq, word == 1)
    }

    ghost made_begun = { λ layout slots seq word. refl };

    ghost loads_no_group = { memb_loads_no_group };

    ghost finishes = { λ layout slots seq word. memb_finishes layout false slots seq (word == 1) };
}

impl WorldPlan for QsbrPlan {
    ghost made = { λ layout slots seq word. qsbr_begun false slots seq word };

    fn make(_layout: Layout, slots: usize, seq: u64, word: u64) -> QsbrPlan {
        QsbrPlan::new(slots, seq, word)
    }

    ghost made_begun = { λ layout slots seq word. refl };

    ghost loads_no_group = { λ layout. qsbr_loads_no_group };

    ghost finishes = { λ layout slots seq word. qsbr_finishes false slots seq word };
}
