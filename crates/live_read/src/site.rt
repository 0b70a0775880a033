//! Which table a value belongs to.

use std::marker::Brand;

/// A type that stands for one table: what belongs to a table is generic in it, so that it fits by its type. A program
/// picks it where it begins to use the table.
pub trait Site {
    ghost use Rattle.atomic_table.specs.Seated.{TableId};
    ghost use Rattle.live_words.specs.live_rule.declared.view.Sizes.{Sizes};

    /// The table.
    ghost table: { TableId };

    /// How many slots, chains, queues and records it has.
    ghost sizes: { Sizes };
}

impl Site for Brand {
    ghost use Rattle.std.specs.Prelude.{[], false};

    ghost table = { record { words = 0; slots = 0; views_name = 0; atom = 0; block = 0; offset = 0; slot_names = [] } };

    ghost sizes = { record { slots = 0; chains = 0; queues = 0; pool = 0 } };
}
