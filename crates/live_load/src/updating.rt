//! What an updater does, on whatever it is.

ghost use Rattle.std.specs.Prelude.{◌≤◌, IfOk};

use crate::round::RoundDone;
use crate::threads::Shared;
use crate::watch::Watch;
use gp_memb::GracePlan;
use rcu_hash::{AnyChain, Chain, ChainRule, Domain, Handle, Site};
use rcu_model::Refusal;
use std::sync::Wait;
use std::thread;
use std::time::Clock;

/// Whoever watches hears once in this many rounds.
const BETWEEN: u32 = 16_384;

/// After this many tries in a row with no free record an updater ends.
const MOST_TRIES: u32 = 1_000_000;

/// What an updater did.
#[derive(Clone, Copy, Drop)]
pub(crate) struct Updated {
    /// How many records it retired.
    pub(crate) retired: u64,
    /// Whether it ended because no record became free.
    pub(crate) starved: bool,
}

/// What this answers as soon as a record is free.
///
/// Refused as that is, with `PoolFull` after this many tries.
pub fn when_free<T: Drop, F: FnMut() -> Result<T, Refusal>>(mut attempt: F) -> Result<T, Refusal>
    requires { F.IsAlwaysCallable attempt }
{
    for _ in 0..MOST_TRIES {
        match attempt() {
            Err(Refusal::PoolFull) => thread::yield_now(),
            other => return other,
        }
    }
    Err(Refusal::PoolFull)
}

/// Round after round, each told its number from 1 on, until all are done, the time is over, or the pool stays full.
/// Where the updater is the first one, whoever watches hears of it.
pub(crate) fn rounds<
    P: GracePlan + Drop,
    K: ChainRule,
    B: Site,
    R: Clock,
    W: Watch,
    F: FnMut(u64) -> Result<(), Refusal>,
>(
    rt: &R,
    shared: &Shared<'_, '_, P, K, B, W>,
    updater: usize,
    mut round: F,
) -> Result<Updated, Refusal>
    requires { F.IsAlwaysCallable round }
    ensures { IfOk result (λ done. done.retired ≤ shared.now.load.rounds) }
{
    let load = &shared.load;
    for number in 0..load.rounds {
        let retired = u64::from(number);
        if shared.deadline.is_over(rt) {
            return Ok(Updated {
                retired,
                starved: false,
            });
        }
        match round(retired + 1) {
            Ok(()) => {}
            Err(Refusal::PoolFull) => {
                return Ok(Updated {
                    retired,
                    starved: true,
                });
            }
            Err(refusal) => return Err(refusal),
        }
        if updater == 0 && (number + 1) % BETWEEN == 0 {
            shared.watch.hear(number + 1);
        }
    }
    Ok(Updated {
        retired: u64::from(load.rounds),
        starved: false,
    })
}

/// A record whose four words are this one takes the place of the chain's first, which is retired.
fn replaces<P: GracePlan + Drop, B: Site, R: Wait>(
    rt: &R,
    domain: &Domain<P, AnyChain, B, RoundDone>,
    record: &mut Handle<B>,
    writer: &mut Chain<'_, P, AnyChain, B, RoundDone>,
    word: u64,
) -> Result<(), Refusal> {
    let owned = when_free(|| domain.alloc(rt, record, [word; 4]))?;
    match domain.replace_retire(rt, record, writer, 0, owned, RoundDone(word)) {
        Ok(_) => Ok(()),
        Err((refusal, owned, _)) => {
            domain.discard(record, owned);
            Err(refusal)
        }
    }
}

/// The writer of a chain, on which it has pushed a record of four zeros.
fn published<'d, P: GracePlan + Drop, B: Site, R: Wait>(
    rt: &R,
    domain: &'d Domain<P, AnyChain, B, RoundDone>,
    record: &mut Handle<B>,
    chain: usize,
) -> Result<Chain<'d, P, AnyChain, B, RoundDone>, Refusal> {
    let mut writer = domain.chain(record, chain)?;
    let owned = when_free(|| domain.alloc(rt, record, [0; 4]))?;
    writer.push(record, owned);
    Ok(writer)
}

/// What an updater of a chain does: it pushes a record of four zeros, and makes its rounds.
pub(crate) fn updates<P: GracePlan + Drop, B: Site, R: Wait + Clock, W: Watch>(
    rt: &R,
    shared: &Shared<'_, '_, P, AnyChain, B, W>,
    record: &mut Handle<B>,
    chain: usize,
) -> Result<Updated, Refusal>
    ensures { IfOk result (λ done. done.retired ≤ shared.now.load.rounds) }
{
    let mut writer = match published(rt, shared.domain, record, chain) {
        Ok(writer) => writer,
        Err(Refusal::PoolFull) => {
            return Ok(Updated {
                retired: 0,
                starved: true,
            });
        }
        Err(refusal) => return Err(refusal),
    };
    rounds(rt, shared, chain, |word| {
        replaces(rt, shared.domain, record, &mut writer, word)
    })
}
