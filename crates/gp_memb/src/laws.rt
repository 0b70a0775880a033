//! Why no flip and no scan of the plan can be left out.

ghost use Rattle.std.specs.Prelude.{false, true, None};
ghost use Rattle.reader_word.specs.declared.layout.Layout.{Layout};
ghost use Rattle.gp_memb.specs.Plan.{WaitsForOpen};
ghost use Rattle.gp_memb.specs.Memb.{memb_begun, memb_action};
ghost use Rattle.gp_memb.specs.Early.{early_action, early_taken};
ghost use Rattle.gp_memb.specs.Shorter.{one_flip, one_scan, stops_at_empty};

/// A plan of one flip, one of two flips with one scan, and one that stops scanning at the first empty slot each break
/// the grace-period law, in both layouts: each can be finished while a section is open that was open at its first
/// store.
pub fn shorter_plans_break_the_law()
    ensures one_flip { (layout : Layout) → ¬ WaitsForOpen false memb_action one_flip layout 1 0 (memb_begun layout false 1 0 false) }
    ensures one_scan { (layout : Layout) → ¬ WaitsForOpen false memb_action one_scan layout 1 0 (memb_begun layout false 1 0 false) }
    ensures stops_at_empty { (layout : Layout) → ¬ WaitsForOpen false memb_action stops_at_empty layout 2 0 (memb_begun layout false 2 0 false) }
{}

/// A plan that goes by a group word which it loaded before its first store breaks the grace-period law, in both
/// layouts: a slot may be claimed, and a section opened in it, between that load and the store.
pub fn early_group_words_break_the_law()
    ensures { (layout : Layout) → ¬ WaitsForOpen false early_action early_taken layout 1 0 (record { early = None; plan = memb_begun layout true 1 0 false }) }
{}
