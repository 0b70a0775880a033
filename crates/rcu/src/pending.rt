//! What only a grace period opens.

ghost use Rattle.std.specs.Prelude.{◌≡◌, ◌≤◌, ◌^◌, ◌↔◌, IfErr, IfOk, IsOk, Ok};
ghost use Rattle.poll_cookie.specs.Cookie.{cookie_for};
ghost use Rattle.rcu_model.specs.declared.refusal.Refusal.TheVariants.{Exhausted};
ghost use Rattle.live_log.specs.Log.{Begins, HaveEnded, seq_of};
ghost use Rattle.rcu_hash.specs.domain.Waiting.{LoadedOnce};
ghost use Rattle.rcu_hash.specs.live_read.Hearing.{FindsNothing, IsAfter};
ghost use Rattle.rcu.specs.Logs.{log_set};

use gp_memb::GracePlan;
use rcu_hash::{Caller, ChainRule, Deleter, Domain, Handle, LiveCookie, Site};
use rcu_model::Refusal;

/// What was asked for at a log: a cookie.
pub trait Asked {
    ghost use Rattle.live_log.specs.Log.{Log};

    /// The log.
    ghost asked: { Self → Log };
}

impl Asked for LiveCookie {
    ghost asked = { λ cookie. cookie.asked.value.me.0.seen };
}

/// Who has heard of a log: a handle.
pub trait Heard {
    ghost use Rattle.live_log.specs.Log.{Log};

    /// The log.
    ghost heard: { Self → Log };
}

impl<B: Site> Heard for Handle<B> {
    ghost heard = { λ handle. handle.seat.me.0.heard };
}

/// A value beside a cookie, and who has heard of the log at which that was asked for: `Pending`, by types that a program
/// need not name. The prover finds that it may be sent since each of its fields is a parameter.
#[derive(Drop)]
pub struct PendingOf<C: Asked, W: Heard, T> {
    pub(crate) cookie: C,
    pub(crate) handle: W,
    pub(crate) value: T,
    pub(crate) ghost knows: { C.asked cookie ≡ W.heard handle } by { log_set (C.asked cookie) (W.heard handle) },
}

/// A value that only a grace period opens: then no section that was open at its making has it any more. Whoever opens
/// it, in whatever thread, hears of all that its maker had heard of.
pub type Pending<B, T> = PendingOf<LiveCookie, Handle<B>, T>;

impl<B: Site, T: Drop> PendingOf<LiveCookie, Handle<B>, T> {
    /// The value, after all that the caller had seen and heard of, liburcu's `start_poll_synchronize_rcu`.
    ///
    /// Refused with `Exhausted` exactly where the sequence number is at or above 2^62; then the value comes back.
    pub fn new<P: GracePlan + Drop, K: ChainRule, D: Deleter, W: Caller<B>>(
        domain: &Domain<P, K, B, D>,
        caller: &mut W,
        value: T,
    ) -> Result<Pending<B, T>, (Refusal, T)>
        ensures made { IfOk result (λ p. (p.value ≡ value) × (p.cookie.asked.value.me.0.seen ≡ W.heard caller.new)) }
        ensures cookie { IfOk result (λ p. cookie_for (seq_of (W.heard caller.new)) ≡ Ok p.cookie.cookie) }
        ensures refused { IfErr result (λ e. (e.0 ≡ Exhausted) × (e.1 ≡ value) × (2 ^ 62 ≤ seq_of (W.heard caller.new))) }
        ensures loaded { LoadedOnce P.QSBR K.allows (W.seen caller.old) (W.heard caller.old) (W.loads caller.old) (W.loads caller.new) (W.heard caller.new) }
        ensures same { FindsNothing W.Caller caller.old caller.new }
    {
        match domain.start_poll(caller) {
            Ok(cookie) => {
                let handle = domain.split(caller);
                Ok(PendingOf {
                    cookie,
                    handle,
                    value,
                })
            }
            Err(refusal) => Err((refusal, value)),
        }
    }

    /// The value, where a grace period has passed: each section that was open at its making has ended in what the
    /// caller hears of; liburcu's `poll_state_synchronize_rcu`. Else it comes back as it was. It sets nobody to work: a
    /// worker, or `Domain::synchronize`, makes grace periods pass.
    pub fn open<P: GracePlan + Drop, K: ChainRule, D: Deleter, W: Caller<B>>(
        self,
        domain: &Domain<P, K, B, D>,
        caller: &mut W,
    ) -> Result<T, Pending<B, T>>
        ensures opened { IfOk result (λ value. (value ≡ self.value) × HaveEnded self.cookie.asked.value.me.0.seen (W.heard caller.new)) }
        ensures told { Begins self.cookie.asked.value.me.0.seen (W.heard caller.new) }
        ensures exact { IsOk result ↔ (self.cookie.cookie ≤ seq_of (W.heard caller.new)) }
        ensures shut { IfErr result (λ p. (p.value ≡ self.value) × (p.cookie ≡ self.cookie)) }
        ensures heard { IsAfter P.QSBR K.allows (W.seen caller.old) (W.heard caller.old) (W.heard caller.new) }
        ensures same { FindsNothing W.Caller caller.old caller.new }
    {
        let PendingOf {
            cookie,
            mut handle,
            value,
        } = self;
        domain.inform(&mut handle, caller);
        if domain.poll(caller, &cookie) {
            Ok(value)
        } else {
            Err(PendingOf {
                cookie,
                handle,
                value,
            })
        }
    }
}
