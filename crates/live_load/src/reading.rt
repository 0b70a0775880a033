//! What a reader does.

ghost use Rattle.std.specs.Prelude.{◌≡◌, ◌≢◌, ◌≤◌, ◌<◌, ◌∷◌, [], ℕ, IfOk, true, false};

use crate::deadline::Deadline;
use crate::load::Load;
use crate::round::RoundDone;
use gp_memb::GracePlan;
use rcu_hash::{AnyChain, ChainRule, Domain, Handle, Reader, Site};
use rcu_model::Refusal;
use std::sync::Wait;
use std::time::Clock;

/// A reader of the quiescent-state flavour goes online.
pub fn begin<P: GracePlan, K: ChainRule, B: Site>(
    reader: &mut Reader<P, K, B>,
) -> Result<(), Refusal> {
    if P::QSBR { reader.online() } else { Ok(()) }
}

/// Whether the words of a record differ.
fn is_mixed(words: [u64; 4]) -> bool
    ensures same { result ≡ false → (word : ℕ) × (words ≡ word ∷ word ∷ word ∷ word ∷ []) }
    ensures mixed { result ≡ true → (word : ℕ) → words ≢ word ∷ word ∷ word ∷ word ∷ [] }
{
    let [first, second, third, last] = words;
    second != first || third != first || last != first
}

/// One section, which reads the first record of a chain, where there is one. Whether its words differ.
fn one_section<P: GracePlan, B: Site>(
    reader: &mut Reader<P, AnyChain, B>,
    chain: usize,
) -> Result<bool, Refusal>
    requires { (reader.old.core.depth ≡ 0) × (reader.old.core.locks ≡ 0) }
    ensures { (reader.new.core.depth ≡ 0) × (reader.new.core.locks ≡ 0) }
{
    let mut section = reader.section()?;
    let mixed = match section.first(chain) {
        Ok(Some(held)) => Ok(is_mixed(section.read(held))),
        Ok(None) => Ok(false),
        Err(refusal) => Err(refusal),
    };
    section.close();
    mixed
}

/// Opens the sections of the load, over the chains in turn, until the time is over. In the quiescent-state flavour the
/// reader announces after each. Answers how many of them read a record whose words differ.
fn sections<P: GracePlan, B: Site, R: Clock>(
    rt: &R,
    reader: &mut Reader<P, AnyChain, B>,
    load: &Load,
    deadline: &Deadline,
) -> Result<u64, Refusal>
    requires { (reader.old.core.depth ≡ 0) × (reader.old.core.locks ≡ 0) × (0 < load.now.updaters) }
    ensures idle { (reader.new.core.depth ≡ 0) × (reader.new.core.locks ≡ 0) }
    ensures count { IfOk result (λ mixed. mixed ≤ load.now.rounds) }
{
    let mut mixed = 0;
    for number in 0..load.rounds {
        if deadline.is_over(rt) {
            return Ok(mixed);
        }
        if one_section(reader, (number % load.updaters) as usize)? {
            mixed += 1;
        }
        if P::QSBR {
            reader.quiescent()?;
        }
    }
    Ok(mixed)
}

/// What a reader does: it registers, goes online in the quiescent-state flavour, makes its sections and unregisters.
/// How many of them read a record whose words differ.
pub fn reads<P: GracePlan + Drop, B: Site, R: Wait + Clock>(
    rt: &R,
    domain: &Domain<P, AnyChain, B, RoundDone>,
    record: &mut Handle<B>,
    load: &Load,
    deadline: &Deadline,
) -> Result<u64, Refusal>
    requires { 0 < load.now.updaters }
    ensures { IfOk result (λ mixed. mixed ≤ load.now.rounds) }
{
    let mut reader = domain.register(rt, record)?;
    if P::QSBR {
        reader.online()?;
    }
    let mixed = sections(rt, &mut reader, load, deadline);
    match reader.unregister(record) {
        Ok(()) => mixed,
        Err((refusal, _)) => Err(refusal),
    }
}
