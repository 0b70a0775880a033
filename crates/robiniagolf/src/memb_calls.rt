//! The calls of C of the general-purpose flavour. `c/include/robiniagolf/rcu.h` tells what each asks of its caller. None has a
//! `requires`, takes a lock or waits, and each answers a handle that keeps nothing by 4.

ghost use Rattle.std.specs.Prelude.{◌≡◌, ◌≢◌, ◌⊎◌, ◌↔◌, ◌<◌, None, IsNone, IsSome};
ghost use Rattle.robiniagolf.specs.Calls.{Beside, Between, Keeps, MembAnswers, MembAsks, MembAwaits, MembEnds, MembFindsAllClaimed, MembFindsNothing, MembHasLocks, MembHasSlots, MembIsBusy, MembIsFull, MembIsHeldUp, MembIsNewGrace, MembIsSpent, MembIsUsedUp, MembLocks, MembRegisters, MembUnlocks, MembWasGivenBack, Stays};

use crate::c_handles::{MembDomainHandle, MembGraceHandle, MembReaderHandle};
use boxed_handle::{put, take};
use gp_memb::MembPlan;
use held_values::{MembDomain, MembGrace, MembReader, new_domain};
use live_read::ReaderCore;
use live_waits::Step;
use live_words::AnyChain;
use poll_cookie::Cookie;
use rcu_model::Refusal;
use std::alloc::{AllocFailed, Global};

/// How many steps a call takes at most: more than a grace period has where none stands in its way.
const MOST: u32 = 1024;

/// Makes a domain with this many slots for readers, from 1 to 256, and its grace periods; the first step of what
/// liburcu does once for all threads. 0 made, 3 memory, 5 a handle keeps something already, 11 a wrong number of slots.
/// Where it is not 0, the handles are as they were.
#[unsafe(no_mangle)]
pub extern "C" fn robiniagolf_memb_domain_new(
    alloc: Global,
    domain: &mut MembDomainHandle,
    grace: &mut MembGraceHandle,
    slots: usize,
) -> u32
    ensures made { result ≡ 0 → Keeps (MembHasSlots slots) domain.new.kept.value × Beside MembIsNewGrace domain.new.kept.value grace.new.kept.value }
    ensures refused { result ≢ 0 → (domain.new.kept.value ≡ domain.old.kept.value) × (grace.new.kept.value ≡ grace.old.kept.value) }
    ensures in_use { (result ≡ 5) ↔ (IsSome domain.old.kept.value ⊎ IsSome grace.old.kept.value) }
    ensures answers { (result ≡ 0) ⊎ (result ≡ 3) ⊎ (result ≡ 5) ⊎ (result ≡ 11) }
    ensures config { result ≡ 11 → (slots ≡ 0) ⊎ (256 < slots) }
{
    if domain.full || grace.full {
        return 5;
    }
    if slots == 0 || slots > 256 {
        return 11;
    }
    let Ok((made, periods)) = new_domain(alloc, slots) else {
        return 3;
    };
    let Ok(made) = Box::new(alloc, MembDomain { domain: made }) else {
        return 3;
    };
    let periods = MembGrace {
        periods,
        apart: [0; 16],
    };
    let Ok(periods) = Box::new(alloc, periods) else {
        return 3;
    };
    put(domain.as_handle(), made);
    put(grace.as_handle(), periods);
    0
}

/// Frees the domain, and leaves the handle empty. Its readers and its grace periods go on, since they own the words too.
/// 0 freed, 4 it keeps nothing.
#[unsafe(no_mangle)]
pub extern "C" fn robiniagolf_memb_domain_free(alloc: Global, domain: &mut MembDomainHandle) -> u32
    ensures freed { domain.new.kept.value ≡ None }
    ensures answers { (result ≡ 0) ⊎ (result ≡ 4) }
    ensures empty { (result ≡ 4) ↔ IsNone domain.old.kept.value }
{
    match take(alloc, domain.as_handle()) {
        Some(kept) => {
            drop(kept);
            0
        }
        None => 4,
    }
}

/// Frees the grace periods of a domain, and leaves the handle empty. 0 freed, 4 it keeps nothing.
#[unsafe(no_mangle)]
pub extern "C" fn robiniagolf_memb_grace_free(alloc: Global, grace: &mut MembGraceHandle) -> u32
    ensures freed { grace.new.kept.value ≡ None }
    ensures answers { (result ≡ 0) ⊎ (result ≡ 4) }
    ensures empty { (result ≡ 4) ↔ IsNone grace.old.kept.value }
{
    match take(alloc, grace.as_handle()) {
        Some(kept) => {
            drop(kept);
            0
        }
        None => 4,
    }
}

/// Registers a reader in the domain, liburcu's `rcu_register_thread`: one atomic step claims the first slot that is found
/// free. 0 registered, 3 memory, 4 the domain's handle keeps nothing, 5 the reader's handle keeps one already, 6 every
/// slot was found claimed. Where it is not 0, the reader's handle is as it was. That no slot
/// stays claimed then, tests show.
#[unsafe(no_mangle)]
pub extern "C" fn robiniagolf_memb_reader_register(
    alloc: Global,
    domain: &mut MembDomainHandle,
    reader: &mut MembReaderHandle,
) -> u32
    ensures registered { result ≡ 0 → Beside MembRegisters domain.old.kept.value reader.new.kept.value }
    ensures refused { result ≢ 0 → reader.new.kept.value ≡ reader.old.kept.value }
    ensures same { result ≢ 6 → Stays MembFindsNothing domain.old.kept.value domain.new.kept.value }
    ensures in_use { (result ≡ 5) ↔ IsSome reader.old.kept.value }
    ensures empty { result ≡ 4 → IsNone domain.old.kept.value }
    ensures no_slot { result ≡ 6 → Between MembFindsAllClaimed domain.old.kept.value domain.new.kept.value }
    ensures answers { (result ≡ 0) ⊎ (result ≡ 3) ⊎ (result ≡ 4) ⊎ (result ≡ 5) ⊎ (result ≡ 6) }
{
    if reader.full {
        return 5;
    }
    if !domain.full {
        return 4;
    }
    let kept = domain.as_handle().kept.lend();
    let registered = kept.domain.register();
    match registered {
        Ok(core) => keep_reader(alloc, reader, core),
        Err(Refusal::NoSlot) => 6,
        Err(_) => 3,
    }
}

// Puts a new reader into an empty handle. Where its box is refused memory, it gives its slot back.
fn keep_reader(
    alloc: Global,
    reader: &mut MembReaderHandle,
    core: ReaderCore<MembPlan, AnyChain>,
) -> u32
    requires { reader.old.kept.value ≡ None }
    ensures kept { result ≡ 0 → Keeps (λ r. r.core ≡ core) reader.new.kept.value }
    ensures refused { result ≢ 0 → reader.new.kept.value ≡ reader.old.kept.value }
    ensures answers { (result ≡ 0) ⊎ (result ≡ 3) }
{
    let held = MembReader {
        core,
        apart: [0; 16],
    };
    match Box::new(alloc, held) {
        Ok(held) => {
            put(reader.as_handle(), held);
            0
        }
        Err(AllocFailed { value }) => {
            let MembReader { core, .. } = value;
            drop(core.unregister());
            3
        }
    }
}

/// Gives the reader's slot back, frees it and leaves the handle empty, liburcu's `rcu_unregister_thread`. It needs no
/// domain. 0 given back, 4 the handle keeps nothing, 7 a lock is open, and then the handle is as it was.
#[unsafe(no_mangle)]
pub extern "C" fn robiniagolf_memb_reader_unregister(
    alloc: Global,
    reader: &mut MembReaderHandle,
) -> u32
    ensures given { result ≡ 0 → Keeps MembWasGivenBack reader.old.kept.value × (reader.new.kept.value ≡ None) }
    ensures refused { result ≢ 0 → reader.new.kept.value ≡ reader.old.kept.value }
    ensures empty { (result ≡ 4) ↔ IsNone reader.old.kept.value }
    ensures busy { (result ≡ 7) ↔ Keeps MembIsBusy reader.old.kept.value }
    ensures answers { (result ≡ 0) ⊎ (result ≡ 4) ⊎ (result ≡ 7) }
{
    if !reader.full {
        return 4;
    }
    if reader.as_handle().kept.lend().core.depth() != 0 {
        return 7;
    }
    give_back(alloc, reader)
}

// Takes out a reader with nothing open, and gives its slot back.
fn give_back(alloc: Global, reader: &mut MembReaderHandle) -> u32
    requires { Keeps (λ r. r.core.depth ≡ 0) reader.old.kept.value }
    ensures given { Keeps MembWasGivenBack reader.old.kept.value × (reader.new.kept.value ≡ None) × (result ≡ 0) }
{
    let Some(held) = take(alloc, reader.as_handle()) else {
        unreachable!()
    };
    let MembReader { core, .. } = Box::into_inner(held);
    let Ok(_seat) = core.unregister() else {
        unreachable!()
    };
    0
}

/// One more lock, liburcu's `rcu_read_lock`: the outermost opens a section. 0 locked, 4 the handle keeps nothing, 9 as
/// many are open as can be.
#[unsafe(no_mangle)]
pub extern "C" fn robiniagolf_memb_reader_lock(reader: &mut MembReaderHandle) -> u32
    ensures locked { result ≡ 0 → Between MembLocks reader.old.kept.value reader.new.kept.value }
    ensures refused { result ≢ 0 → reader.new.kept.value ≡ reader.old.kept.value }
    ensures empty { (result ≡ 4) ↔ IsNone reader.old.kept.value }
    ensures nest_full { result ≡ 9 → Keeps MembIsFull reader.old.kept.value }
    ensures answers { (result ≡ 0) ⊎ (result ≡ 4) ⊎ (result ≡ 9) }
{
    if !reader.full {
        return 4;
    }
    let held = reader.as_handle().kept.lend();
    let answer = match held.core.lock() {
        Ok(()) => 0,
        Err(_) => 9,
    };
    answer
}

/// One lock less, liburcu's `rcu_read_unlock`: the outermost closes the section. 0 unlocked, 4 the handle keeps nothing,
/// 8 no lock is open.
#[unsafe(no_mangle)]
pub extern "C" fn robiniagolf_memb_reader_unlock(reader: &mut MembReaderHandle) -> u32
    ensures unlocked { result ≡ 0 → Between MembUnlocks reader.old.kept.value reader.new.kept.value }
    ensures refused { result ≢ 0 → reader.new.kept.value ≡ reader.old.kept.value }
    ensures empty { (result ≡ 4) ↔ IsNone reader.old.kept.value }
    ensures not_open { result ≡ 8 → Keeps (MembHasLocks 0) reader.old.kept.value }
    ensures answers { (result ≡ 0) ⊎ (result ≡ 4) ⊎ (result ≡ 8) }
{
    if !reader.full {
        return 4;
    }
    let held = reader.as_handle().kept.lend();
    let answer = match held.core.unlock() {
        Ok(()) => 0,
        Err(_) => 8,
    };
    answer
}

/// Ends all that is open by one store, for a thread that is gone. 0 ended, 4 the handle keeps nothing.
#[unsafe(no_mangle)]
pub extern "C" fn robiniagolf_memb_reader_end(reader: &mut MembReaderHandle) -> u32
    ensures ended { result ≡ 0 → Between MembEnds reader.old.kept.value reader.new.kept.value }
    ensures refused { result ≢ 0 → reader.new.kept.value ≡ reader.old.kept.value }
    ensures empty { (result ≡ 4) ↔ IsNone reader.old.kept.value }
    ensures answers { (result ≡ 0) ⊎ (result ≡ 4) }
{
    if !reader.full {
        return 4;
    }
    let held = reader.as_handle().kept.lend();
    held.core.end();
    0
}

/// How many locks are open, of which liburcu's `rcu_read_ongoing` tells whether any is. 0 of a handle that keeps nothing.
#[unsafe(no_mangle)]
pub extern "C" fn robiniagolf_memb_reader_depth(reader: &mut MembReaderHandle) -> u64
    ensures same { reader.new.kept.value ≡ reader.old.kept.value }
    ensures empty { IsNone reader.old.kept.value → result ≡ 0 }
    ensures counted { IsSome reader.old.kept.value → Keeps (MembHasLocks result) reader.old.kept.value }
{
    if !reader.full {
        return 0;
    }
    let held = reader.as_handle().kept.lend();
    let locks = held.core.locks();
    locks
}

/// Asks for a grace period, liburcu's `start_poll_synchronize_rcu`, and writes its cookie. 0 asked, 4 the handle keeps
/// nothing, 10 no sequence numbers are left. Where it is not 0, the cookie is as it was.
#[unsafe(no_mangle)]
pub extern "C" fn robiniagolf_memb_grace_ask(grace: &mut MembGraceHandle, cookie: &mut u64) -> u32
    ensures asked { result ≡ 0 → Between (MembAsks cookie.new) grace.old.kept.value grace.new.kept.value }
    ensures refused { result ≢ 0 → cookie.new ≡ cookie.old }
    ensures empty { (result ≡ 4) ↔ IsNone grace.old.kept.value }
    ensures exhausted { result ≡ 10 → Between MembIsSpent grace.old.kept.value grace.new.kept.value }
    ensures answers { (result ≡ 0) ⊎ (result ≡ 4) ⊎ (result ≡ 10) }
{
    if !grace.full {
        return 4;
    }
    let held = grace.as_handle().kept.lend();
    let asked = held.periods.ask();
    match asked {
        Ok(made) => {
            *cookie = made.number();
            0
        }
        Err(_) => 10,
    }
}

/// Whether the ask of a cookie is answered, liburcu's `poll_state_synchronize_rcu`. 0 answered, 1 not yet, 4 the handle
/// keeps nothing.
#[unsafe(no_mangle)]
pub extern "C" fn robiniagolf_memb_grace_poll(grace: &mut MembGraceHandle, cookie: u64) -> u32
    ensures over { result ≡ 0 → Between (MembAnswers cookie) grace.old.kept.value grace.new.kept.value }
    ensures not_yet { result ≡ 1 → Between (MembAwaits cookie) grace.old.kept.value grace.new.kept.value }
    ensures empty { (result ≡ 4) ↔ IsNone grace.old.kept.value }
    ensures answers { (result ≡ 0) ⊎ (result ≡ 1) ⊎ (result ≡ 4) }
{
    if !grace.full {
        return 4;
    }
    let held = grace.as_handle().kept.lend();
    let over = held.periods.poll(Cookie::of(cookie));
    if over { 0 } else { 1 }
}

/// Polls, and where the ask is not answered takes steps of the grace period that is going, or of a new one: liburcu's
/// `synchronize_rcu` is this in a loop. 0 answered, 1 call again, 2 a section stands in the way, 4 the handle keeps
/// nothing, 10 no sequence numbers are left.
#[unsafe(no_mangle)]
pub extern "C" fn robiniagolf_memb_grace_step(grace: &mut MembGraceHandle, cookie: u64) -> u32
    ensures over { result ≡ 0 → Between (MembAnswers cookie) grace.old.kept.value grace.new.kept.value }
    ensures not_yet { result ≢ 0 → result ≢ 4 → Between (MembAwaits cookie) grace.old.kept.value grace.new.kept.value }
    ensures empty { (result ≡ 4) ↔ IsNone grace.old.kept.value }
    ensures in_way { result ≡ 2 → Between MembIsHeldUp grace.old.kept.value grace.new.kept.value }
    ensures exhausted { result ≡ 10 → Keeps MembIsUsedUp grace.old.kept.value }
    ensures answers { (result ≡ 0) ⊎ (result ≡ 1) ⊎ (result ≡ 2) ⊎ (result ≡ 4) ⊎ (result ≡ 10) }
{
    if !grace.full {
        return 4;
    }
    let held = grace.as_handle().kept.lend();
    let step = held.periods.step(Cookie::of(cookie), MOST);
    match step {
        Step::Done => 0,
        Step::Going => 1,
        Step::InTheWay(_) => 2,
        Step::Exhausted => 10,
    }
}
