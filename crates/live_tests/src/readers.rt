//! Each call once, in both flavours. An outermost lock that copies phase 0 stores 1, and each inner one adds 1; going
//! online at number 0 stores 1, and offline is 0.

ghost use Rattle.std.specs.Prelude.{◌≡◌, ◌<◌, [], true, false, IfOk};
ghost use Rattle.std.specs.Arc.{arc_value};
ghost use Rattle.live_words.specs.live_rule.Views.{first_view};

use crate::registering::first_record;
use gp_memb::{GracePlan, MembPlan};
use gp_qsbr::QsbrPlan;
use live_read::{Caller, Handle, Reader, Site, inform};
use live_words::{AnyChain, ChainRule, LiveSeat, LiveTable};
use rcu_model::Refusal;
use std::marker::Brand;
use std::sync::{Arc, Wait};

/// The first reader of a new table.
fn first_reader<P: GracePlan, K: ChainRule, B: Site, R: Wait>(
    rt: &R,
    words: &Arc<LiveTable<P, K>>,
    root: LiveSeat,
) -> Result<Reader<P, K, B>, Refusal>
    requires site { ((arc_value words.now).words.shared.table_id ≡ B.table) × (root.table_id ≡ B.table) × ((arc_value words.now).words.shared.key ≡ B.sizes) }
    requires new { root.me ≡ (first_view (arc_value words.now).words.shared.key, []) }
    ensures { IfOk result (λ r. (r.core.depth ≡ 0) × (r.core.locks ≡ 0)) }
{
    let mut record = first_record::<P, K, B>(words, root);
    Reader::register(rt, words, &mut record)
}

/// The word that a reader stored last.
fn word_of<B: Site>(reader: &Reader<MembPlan, AnyChain, B>) -> u64 {
    reader.word()
}

/// Whether an unlock is refused for want of a lock. It leaves the reader as it was.
fn has_no_lock<B: Site>(reader: &mut Reader<MembPlan, AnyChain, B>) -> bool
    requires { reader.old.core.locks ≡ 0 }
    ensures { reader.new ≡ reader.old }
{
    match reader.unlock() {
        Ok(()) => false,
        Err(refusal) => matches!(refusal, Refusal::NotOpen),
    }
}

/// Whether an announcement is refused as `Busy`. It ends no section.
fn is_busy<B: Site>(reader: &mut Reader<QsbrPlan, AnyChain, B>) -> bool
    ensures { (reader.new.core.depth ≡ reader.old.core.depth) × (reader.new.core.locks ≡ reader.old.core.locks) }
{
    match reader.quiescent() {
        Ok(()) => false,
        Err(refusal) => matches!(refusal, Refusal::Busy),
    }
}

/// Whether going offline is refused as `Busy`. It ends no section.
fn stays_online<B: Site>(reader: &mut Reader<QsbrPlan, AnyChain, B>) -> bool
    ensures { (reader.new.core.depth ≡ reader.old.core.depth) × (reader.new.core.locks ≡ reader.old.core.locks) }
{
    match reader.offline() {
        Ok(()) => false,
        Err(refusal) => matches!(refusal, Refusal::Busy),
    }
}

fn nests<B: Site>(reader: &mut Reader<MembPlan, AnyChain, B>) -> Result<([u64; 5], bool), Refusal>
    requires { (reader.old.core.depth ≡ 0) × (reader.old.core.locks ≡ 0) }
{
    let mut outer = reader.section()?;
    let one = word_of(&*outer.reader);
    let inner = outer.reader.section()?;
    let two = word_of(&*inner.reader);
    inner.close();
    let left = word_of(&*outer.reader);
    outer.reader.lock()?;
    let locked = word_of(&*outer.reader);
    outer.reader.unlock()?;
    let refused = has_no_lock(outer.reader);
    let alive = word_of(&*outer.reader);
    outer.close();
    Ok(([one, two, left, locked, alive], refused))
}

fn locks<B: Site>(reader: &mut Reader<MembPlan, AnyChain, B>) -> Result<[bool; 6], Refusal> {
    let none = matches!(reader.unlock(), Err(Refusal::NotOpen));
    let locked = reader.try_lock() && reader.word() == 1;
    reader.unlock()?;
    let left = reader.word() == 0;
    let online = matches!(reader.online(), Err(Refusal::WrongFlavour));
    let quiescent = matches!(reader.quiescent(), Err(Refusal::WrongFlavour));
    let offline = matches!(reader.offline(), Err(Refusal::WrongFlavour));
    Ok([none, locked, left, online, quiescent, offline])
}

fn announces<B: Site>(
    reader: &mut Reader<QsbrPlan, AnyChain, B>,
) -> Result<([bool; 5], [bool; 4], [u64; 3]), Refusal> {
    let outside = matches!(reader.section(), Err(Refusal::NotOpen));
    let unlocked = matches!(reader.lock(), Err(Refusal::NotOpen));
    let tried = !reader.try_lock();
    let silent = matches!(reader.quiescent(), Err(Refusal::NotOpen));
    let gone = matches!(reader.offline(), Err(Refusal::NotOpen));
    reader.online()?;
    let online = reader.word();
    let again = matches!(reader.online(), Err(Refusal::Busy));
    reader.lock()?;
    let locked = matches!(reader.quiescent(), Err(Refusal::Busy));
    reader.unlock()?;
    let mut section = reader.section()?;
    let inside = is_busy(section.reader);
    let nested = section.reader.section()?;
    let within = stays_online(nested.reader);
    nested.close();
    section.close();
    reader.quiescent()?;
    let announced = reader.word();
    reader.offline()?;
    Ok((
        [outside, unlocked, tried, silent, gone],
        [again, locked, inside, within],
        [online, announced, reader.word()],
    ))
}

fn tells<P: GracePlan, K: ChainRule, B: Site>(table: &LiveTable<P, K>, reader: &mut Reader<P, K, B>)
    requires { table.now.words.shared.table_id ≡ B.table }
    ensures { (reader.new.core.depth ≡ reader.old.core.depth) × (reader.new.core.locks ≡ reader.old.core.locks) }
{
    let mut record = Handle::<B>::split(table, reader);
    inform(table, &mut record, reader);
    let told = reader.tell(table);
    record.learn(table, told);
}

fn general<B: Site, R: Wait>(
    rt: &R,
    words: &Arc<LiveTable<MembPlan, AnyChain>>,
    root: LiveSeat,
) -> Result<(([u64; 5], bool), [bool; 6]), Refusal>
    requires site { ((arc_value words.now).words.shared.table_id ≡ B.table) × (root.table_id ≡ B.table) × ((arc_value words.now).words.shared.key ≡ B.sizes) }
    requires new { root.me ≡ (first_view (arc_value words.now).words.shared.key, []) }
{
    let mut reader = first_reader::<MembPlan, AnyChain, B, R>(rt, words, root)?;
    let words = nests(&mut reader)?;
    Ok((words, locks(&mut reader)?))
}

fn quiescent<B: Site, R: Wait>(
    rt: &R,
    words: &Arc<LiveTable<QsbrPlan, AnyChain>>,
    root: LiveSeat,
) -> Result<([bool; 5], [bool; 4], [u64; 3]), Refusal>
    requires site { ((arc_value words.now).words.shared.table_id ≡ B.table) × (root.table_id ≡ B.table) × ((arc_value words.now).words.shared.key ≡ B.sizes) }
    requires new { root.me ≡ (first_view (arc_value words.now).words.shared.key, []) }
{
    let mut reader = first_reader::<QsbrPlan, AnyChain, B, R>(rt, words, root)?;
    tells(words, &mut reader);
    announces(&mut reader)
}

#[test]
fn sections_and_locks_nest(rt: HostRuntime) {
    let (table, root) = LiveTable::<MembPlan, AnyChain>::new(rt.alloc(), 2, 1, 1, 4).expect(
        &rt, "memory",
    );
    let words = Arc::new(rt.alloc(), table).expect(&rt, "memory");
    let (sections, locks) = general::<Brand, _>(&rt, &words, root).expect(&rt, "not refused");
    assert_eq!(rt; sections, ([1, 2, 1, 2, 1], true));
    assert_eq!(rt; locks, [true, true, true, true, true, true]);
}

#[test]
fn announcements(rt: HostRuntime) {
    let (table, root) = LiveTable::<QsbrPlan, AnyChain>::new(rt.alloc(), 2, 1, 1, 4).expect(
        &rt, "memory",
    );
    let words = Arc::new(rt.alloc(), table).expect(&rt, "memory");
    let (away, busy, stored) = quiescent::<Brand, _>(&rt, &words, root).expect(&rt, "not refused");
    assert_eq!(rt; away, [true, true, true, true, true]);
    assert_eq!(rt; busy, [true, true, true, true]);
    assert_eq!(rt; stored, [1, 1, 0]);
}
