//! A law of tables that directories lead.

ghost use Rattle.std.specs.Prelude.{Bool};
ghost use Rattle.rcu_hash.specs.Directories.{BucketsAnswer};

/// A bucket answers for its table. Take a section that was open while a directory was linked, and is open still. What a
/// key has then in the directory's bucket, the table's map had while the directory was linked: in that log, or at the
/// latest in the one in which another directory took its place. So a lookup that read a directory answers by the
/// table's map in such a log, also while the table grows.
pub fn buckets_answer_for_their_table()
    ensures { (qsbr : Bool) → BucketsAnswer qsbr }
{}
