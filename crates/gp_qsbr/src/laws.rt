//! Why a scan of the quiescent-state flavour waits for the raised number itself.

ghost use Rattle.std.specs.Prelude.{true, false};
ghost use Rattle.reader_word.specs.declared.layout.Layout.TheVariants.{Wide};
ghost use Rattle.gp_memb.specs.Plan.{WaitsForOpen};
ghost use Rattle.gp_qsbr.specs.Qsbr.{qsbr_begun, qsbr_action};
ghost use Rattle.gp_qsbr.specs.Newer.{accepts_newer};

/// A plan whose scan accepts any word that is no less than the old number breaks the grace-period law: it can be
/// finished while a reader has not announced since the plan's first store.
pub fn accepting_newer_numbers_breaks_the_law()
    ensures { ¬ WaitsForOpen true qsbr_action accepts_newer Wide 1 0 (qsbr_begun false 1 0 0) }
{}
