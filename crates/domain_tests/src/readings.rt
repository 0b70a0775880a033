//! What a section reads: the words that `alloc` was given, while it nests and its reader makes other calls, and as a
//! run of the abstract machine.

ghost use Rattle.std.specs.Prelude.{◌≡◌, ℕ, ◌<◌, ◌∷◌, Option, Some, IfOk, IfSome};
ghost use Rattle.domain.specs.Naming.{Names};
ghost use Rattle.rcu_model.specs.declared.event.ObjectId.{ObjectId};
ghost use Rattle.rcu_model.specs.declared.event.SectionId.{SectionId};
ghost use Rattle.rcu_model.specs.Sets.{first_of};
ghost use Rattle.live_log.specs.declared.event.LiveEvent.TheVariants.{Object};
ghost use Rattle.live_log.specs.declared.event.ObjectEvent.TheVariants.{Push};
ghost use Rattle.live_log.specs.Log.{Begins, Has, IsLiveRun, Log, objects_of, payload_of};
ghost use Rattle.live_log.specs.declared.reading.Reading.TheVariants.{First, Next, Touch};
ghost use Rattle.live_log.specs.declared.reading.Mark.TheVariants.{Read};
ghost use Rattle.live_log.specs.Fit.{Readings, later};
ghost use Rattle.domain.specs.live_read.Holding.{log_of};
ghost use Rattle.domain.specs.live_read.Readings.{HasRead};

use crate::deleter::Adds;
use domain::{AnyChain, Domain, LiveConfig, Opened, Reader, Section, Site, readings_fit};
use gp_memb::{GracePlan, MembPlan};
use gp_qsbr::QsbrPlan;
use live_log::published_words_stay;
use rcu_model::Refusal;
use std::alloc::Global;
use std::marker::Brand;
use std::sync::Wait;

/// Allocates a record and pushes it, in a section. Answers what the chain's writer reads of it, and what the section
/// reads of the chain's first object: its payload in a log that the reader saw, which is a run and has the push; where
/// it is the object that was pushed, what `alloc` was given.
fn publishes<P: GracePlan + Drop, B: Site, R: Wait>(
    rt: &R,
    domain: &Domain<P, AnyChain, B, Adds>,
    section: &mut Section<P, AnyChain, B>,
    chain: usize,
    words: [u64; 4],
) -> Result<(Option<[u64; 4]>, Option<[u64; 4]>), Refusal>
    ensures reader { section.new.reader.ghost_name ≡ section.old.reader.ghost_name }
    ensures counts { (section.new.reader.now.core.depth ≡ section.old.reader.now.core.depth) × (section.new.reader.now.core.locks ≡ section.old.reader.now.core.locks) }
    ensures writer { IfOk result (λ got. got.0 ≡ Some words) }
    ensures found { IfOk result (λ got. IfSome got.1 (λ read. (log : Log) × (pushed o : ObjectId) × (cell : ℕ) × IsLiveRun P.QSBR (λ before event. Unit {0}) log × Begins log (log_of section.new.reader.now.core) × Has (Object (Push chain pushed cell words)) log × (first_of ((objects_of log).chain chain) ≡ Some o) × (read ≡ payload_of log o) × (o ≡ pushed → read ≡ words))) }
{
    published_words_stay::<AnyChain>();
    let owned = domain.alloc(rt, section.reader, words)?;
    let mut writer = domain.chain(section.reader, chain)?;
    writer.push(section.reader, owned);
    let own = writer.get(0);
    let read = match section.first(chain)? {
        Some(held) => Some(section.read(held)),
        None => None,
    };
    Ok((own, read))
}

/// Finds the first object of a chain, begins and ends an inner section, asks and polls, and reads what it found.
fn reads_across<P: GracePlan + Drop, B: Site>(
    domain: &Domain<P, AnyChain, B, Adds>,
    section: &mut Section<P, AnyChain, B>,
    chain: usize,
) -> Result<Option<[u64; 4]>, Refusal>
    ensures reader { section.new.reader.ghost_name ≡ section.old.reader.ghost_name }
    ensures counts { (section.new.reader.now.core.depth ≡ section.old.reader.now.core.depth) × (section.new.reader.now.core.locks ≡ section.old.reader.now.core.locks) }
{
    let Some(held) = section.first(chain)? else {
        return Ok(None);
    };
    let inner = section.reader.section()?;
    inner.close();
    let cookie = domain.start_poll(section.reader)?;
    domain.poll(section.reader, &cookie);
    Ok(Some(section.read(held)))
}

/// Reads the first object of a chain and looks for what follows it. Put among the events of the log, the three readings
/// are a run of the abstract machine, after what the section had read before.
fn reads_on<P: GracePlan, B: Site>(
    section: &mut Section<P, AnyChain, B>,
    chain: usize,
) -> Result<Option<([u64; 4], bool)>, Refusal>
    ensures reader { section.new.reader.ghost_name ≡ section.old.reader.ghost_name }
    ensures counts { (section.new.reader.now.core.depth ≡ section.old.reader.now.core.depth) × (section.new.reader.now.core.locks ≡ section.old.reader.now.core.locks) }
    ensures run { IfOk result (λ got. IfSome got (λ _. (s : SectionId) (m : Readings) → HasRead s m section.old.reader.now.core → (a b c : Log) × (o : ObjectId) × (found : Option ObjectId) × HasRead s (Read s (Next o found) ∷ later c (Read s (Touch o) ∷ later b (Read s (First chain (Some o)) ∷ later a m))) section.new.reader.now.core)) }
{
    readings_fit::<P, AnyChain>();
    let Some(held) = section.first(chain)? else {
        return Ok(None);
    };
    let words = section.read(held);
    let next = section.next(held);
    Ok(Some((words, next.is_some())))
}

/// What a writer and a section read.
type Told = (
    Option<[u64; 4]>,
    [Option<[u64; 4]>; 3],
    Option<([u64; 4], bool)>,
);

/// What one section publishes and reads, on a chain that nobody else writes.
fn reads_all<P: GracePlan + Drop, B: Site, R: Wait>(
    rt: &R,
    domain: &Domain<P, AnyChain, B, Adds>,
    reader: &mut Reader<P, AnyChain, B>,
) -> Result<Told, Refusal>
    requires { (reader.old.core.depth ≡ 0) × (reader.old.core.locks ≡ 0) }
{
    let mut section = reader.section()?;
    let (own, first) = publishes(rt, domain, &mut section, 0, [1, 2, 3, 4])?;
    let (_, second) = publishes(rt, domain, &mut section, 0, [5, 6, 7, 8])?;
    let across = reads_across(domain, &mut section, 0)?;
    let on = reads_on(&mut section, 0)?;
    section.close();
    Ok((own, [first, second, across], on))
}

/// The same in a domain of its own.
fn reads_alone<P: GracePlan + Drop, B: Site, R: Wait>(
    rt: &R,
    alloc: Global,
    opened: Opened<P, AnyChain>,
) -> Result<Told, Refusal>
    requires { Names B.Site opened }
{
    let (domain, mut record) = opened.into_domain::<B, Adds>(alloc)?;
    let mut reader = domain.register(rt, &mut record)?;
    if P::QSBR {
        reader.online()?;
    }
    reads_all(rt, &domain, &mut reader)
}

fn of_four_records() -> LiveConfig {
    LiveConfig {
        slots: 1,
        queues: 1,
        chains: 1,
        pool: 4,
    }
}

#[test]
fn a_section_reads_what_was_given(rt: HostRuntime) {
    let opened = Opened::<MembPlan, AnyChain>::new(rt.alloc(), of_four_records()).expect(
        &rt, "memory",
    );
    let (own, read, on) = reads_alone::<MembPlan, Brand, _>(&rt, rt.alloc(), opened).expect(
        &rt,
        "not refused",
    );
    assert_eq!(rt; own, Some([1, 2, 3, 4]));
    assert_eq!(rt;
        read,
        [Some([1, 2, 3, 4]), Some([5, 6, 7, 8]), Some([5, 6, 7, 8])]
    );
    assert_eq!(rt; on, Some(([5, 6, 7, 8], true)));
}

#[test]
fn an_announcing_reader_reads_what_was_given(rt: HostRuntime) {
    let opened = Opened::<QsbrPlan, AnyChain>::new(rt.alloc(), of_four_records()).expect(
        &rt, "memory",
    );
    let (own, read, on) = reads_alone::<QsbrPlan, Brand, _>(&rt, rt.alloc(), opened).expect(
        &rt,
        "not refused",
    );
    assert_eq!(rt; own, Some([1, 2, 3, 4]));
    assert_eq!(rt;
        read,
        [Some([1, 2, 3, 4]), Some([5, 6, 7, 8]), Some([5, 6, 7, 8])]
    );
    assert_eq!(rt; on, Some(([5, 6, 7, 8], true)));
}
