//! What earlier directories left.

ghost use Rattle.std.specs.Prelude.{◌≡◌, ◌≢◌, ℕ, ◌+◌, ◌^◌, ◌-◌, ◌<◌, IfSome, IsSome, Some, length, map, min, option_map, vec_len};
ghost use Rattle.rcu_model.specs.declared.event.ObjectId.{ObjectId};
ghost use Rattle.live_log.specs.Log.{Begins, chain_note};
ghost use Rattle.live_log.specs.Tables.{tabled};
ghost use Rattle.rcu_list.specs.live_read.Hearing.{IsAfter, OnlyHears};
ghost use Rattle.rcu_list.specs.live_rule.Rights.{object_in, own_in};
ghost use Rattle.rcu_list.specs.live_write.Calls.{IsUnretired};
ghost use Rattle.rcu_hash.specs.Growing.{HasLeft};
ghost use Rattle.rcu_hash.specs.Refusing.{During};
ghost use Rattle.rcu_hash.specs.Tables.{IsAmong};
ghost use Rattle.rcu_hash.specs.Tidying.{CountsLeft, IsLeft, IsLinked, IsRecord, IsRest, LinksStill, left_prop, objects_in, one_if, record_prop};
ghost use Rattle.rcu_hash.specs.Writers.{Each, each_prop, length_of, lengths_of, rights_of, some_prop};

use crate::directory::{DirectoryLock, Naming};
use crate::labelled::{Labelled, take};
use gp_memb::GracePlan;
use live_log::Tabled;
use rcu_list::{Caller, Chain, Deleter, Handle, Site, Unlinked};
use std::sync::Wait;

/// What is left of the directories before the one that is linked: the record of the last of them, unless that is
/// retired, and chains that it named, with the objects that are not retired yet. A handle has heard of a log in which
/// nothing else is left.
#[derive(Drop)]
pub(crate) struct OldTable<'d, P: GracePlan, B: Site, D: Drop> {
    /// The directory that is linked.
    pub(crate) naming: Naming,
    pub(crate) unlinked: Option<Unlinked<B>>,
    pub(crate) chains: Vec<Chain<'d, P, Tabled, B, D>>,
    pub(crate) handle: Handle<B>,
    pub(crate) ghost some: { IsSome unlinked → 0 < vec_len chains },
    pub(crate) ghost left: { Each (IsLeft naming.directory naming.first naming.buckets) (map (λ c. c.seat.me.0) chains.items) } by { each_prop (IsLeft naming.directory naming.first naming.buckets) (left_prop naming.directory naming.first naming.buckets) _ },
    pub(crate) ghost replaced: { IfSome unlinked (λ u. IsRecord naming.directory u.chain u.seat.me.0) } by { some_prop (λ u. IsRecord naming.directory u.chain u.seat.me.0) (λ u. record_prop naming.directory u.chain u.seat.me.0) _ },
    pub(crate) ghost rest: { IsRest naming.directory naming.object (map (λ c. c.seat.me.0) chains.items) (option_map (λ u. object_in u.seat.me.0.object) unlinked) handle.seat.me.0.heard },
}

impl<P: GracePlan, B: Site, D: Drop> Labelled<usize> for OldTable<'_, P, B, D> {
    ghost label = { λ left. left.naming.directory };

    fn has_label(&self, wanted: usize) -> bool {
        self.naming.directory == wanted
    }
}

/// How many objects these chains have, with this many others; at most the greatest number.
fn count_objects<P: GracePlan, B: Site, D: Deleter>(
    chains: &[Chain<'_, P, Tabled, B, D>],
    others: usize,
) -> usize
    ensures { result ≡ min (others + objects_in (map (λ c. c.seat.me.0) chains.now)) (2 ^ 64 - 1) }
{
    let mut many = others;
    for index in 0..chains.len() {
        many = many.saturating_add(chains[index].len());
    }
    many
}

/// The record, if there is one. Then the caller hears of a log in which it is not retired.
fn hear_record<P: GracePlan + Drop, B: Site, D: Deleter, W: Caller<B>>(
    chains: &[Chain<'_, P, Tabled, B, D>],
    caller: &mut W,
    unlinked: Option<Unlinked<B>>,
) -> Option<Unlinked<B>>
    requires some { IsSome unlinked → 0 < length chains.now }
    ensures unretired { (o : ObjectId) → option_map (λ u. object_in u.seat.me.0.object) unlinked ≡ Some o → During W.Caller P.QSBR tabled caller.old caller.new (IsUnretired o) }
    ensures record { option_map (λ u. object_in u.seat.me.0.object) result ≡ option_map (λ u. object_in u.seat.me.0.object) unlinked }
    ensures its { (d : ℕ) → IfSome unlinked (λ u. IsRecord d u.chain u.seat.me.0) → IfSome result (λ u. IsRecord d u.chain u.seat.me.0) }
    ensures heard { Begins (W.heard caller.old) (W.heard caller.new) }
    ensures same { OnlyHears W.Caller caller.old caller.new }
{
    let mut unlinked = unlinked?;
    chains[0].domain().hear_unlinked(caller, &mut unlinked);
    Some(unlinked)
}

impl<'d, P: GracePlan + Drop, B: Site, D: Deleter> DirectoryLock<'d, P, B, D> {
    /// The caller hears of a log in which a chain that an earlier directory named has its note still. It waits for the
    /// directory's lock.
    pub(crate) fn hear_left<W: Caller<B>, R: Wait>(
        &self,
        rt: &R,
        naming: Naming,
        caller: &mut W,
        chain: &mut Chain<'_, P, Tabled, B, D>,
    )
        requires chain { IsLeft naming.directory naming.first naming.buckets chain.old.seat.me.0 }
        ensures left { LinksStill naming.directory (length_of (own_in chain.new.seat.me.0.chains)) (W.heard caller.new) }
        ensures heard { IsAfter P.QSBR tabled (W.seen caller.old) (W.heard caller.old) (W.heard caller.new) }
        ensures chain { IsLeft naming.directory naming.first naming.buckets chain.new.seat.me.0 }
        ensures right { own_in chain.new.seat.me.0.chains ≡ own_in chain.old.seat.me.0.chains }
        ensures number { chain.new.number ≡ chain.old.number }
        ensures same { OnlyHears W.Caller caller.old caller.new }
    {
        let (mut place, lent) = self.lend(rt, naming, chain);
        chain.hear(caller);
        *place = Some(lent.take_back(chain));
    }

    /// As `hear_left`, for each of these chains in turn.
    fn hear_all<W: Caller<B>, R: Wait>(
        &self,
        rt: &R,
        naming: Naming,
        caller: &mut W,
        chains: &mut Vec<Chain<'d, P, Tabled, B, D>>,
    )
        requires chains { Each (IsLeft naming.directory naming.first naming.buckets) (map (λ c. c.seat.me.0) chains.old.items) }
        ensures still { Each (λ c. During W.Caller P.QSBR tabled caller.old caller.new (LinksStill naming.directory c)) (lengths_of (rights_of (map (λ c. c.seat.me.0) chains.new.items))) }
        ensures chains { Each (IsLeft naming.directory naming.first naming.buckets) (map (λ c. c.seat.me.0) chains.new.items) }
        ensures rights { rights_of (map (λ c. c.seat.me.0) chains.new.items) ≡ rights_of (map (λ c. c.seat.me.0) chains.old.items) }
        ensures heard { Begins (W.heard caller.old) (W.heard caller.new) }
        ensures same { OnlyHears W.Caller caller.old caller.new }
    {
        for index in 0..chains.len() {
            self.hear_left(rt, naming, caller, &mut chains[index]);
        }
    }
}

impl<'d, P: GracePlan + Drop, B: Site, D: Deleter> OldTable<'d, P, B, D> {
    /// The caller hears of a log in which something is left: there are chains. It waits for the directory's lock.
    pub(crate) fn hear<W: Caller<B>, R: Wait>(
        self,
        rt: &R,
        lock: &DirectoryLock<'d, P, B, D>,
        caller: &mut W,
    ) -> OldTable<'d, P, B, D>
        requires { 0 < vec_len self.chains }
        ensures left { HasLeft self.entry.naming.directory (W.heard caller.new) }
        ensures heard { IsAfter P.QSBR tabled (W.seen caller.old) (W.heard caller.old) (W.heard caller.new) }
        ensures same { OnlyHears W.Caller caller.old caller.new × (result.naming ≡ self.entry.naming) }
    {
        let OldTable {
            naming,
            unlinked,
            mut chains,
            handle,
        } = self;
        let Some(mut chain) = chains.pop() else {
            unreachable!()
        };
        lock.hear_left(rt, naming, caller, &mut chain);
        chains.push_reserved(chain);
        OldTable {
            naming,
            unlinked,
            chains,
            handle,
        }
    }

    /// The caller hears of a log in which nothing else is left. It waits for the directory's lock.
    pub(crate) fn tell<W: Caller<B>, R: Wait>(
        self,
        rt: &R,
        lock: &DirectoryLock<'d, P, B, D>,
        caller: &mut W,
    ) -> OldTable<'d, P, B, D>
        ensures rest { IsRest self.entry.naming.directory self.entry.naming.object (map (λ c. c.seat.me.0) self.entry.chains.items) (option_map (λ u. object_in u.seat.me.0.object) self.entry.unlinked) (W.heard caller.new) }
        ensures linked { IsLinked self.entry.naming.directory self.entry.naming.object (W.heard caller.new) }
        ensures noted { (c : ℕ) → IsAmong self.entry.naming.first self.entry.naming.buckets c → chain_note c (W.heard caller.new) ≢ 0 }
        ensures heard { IsAfter P.QSBR tabled (W.seen caller.old) (W.heard caller.old) (W.heard caller.new) }
        ensures same { OnlyHears W.Caller caller.old caller.new }
        ensures left { (result.naming ≡ self.entry.naming) × (result.chains ≡ self.entry.chains) × (result.unlinked ≡ self.entry.unlinked) }
    {
        let OldTable {
            naming,
            unlinked,
            chains,
            mut handle,
        } = self;
        let (mut place, mut directory) = take(rt, &lock.writer, naming);
        directory.hear(&mut handle);
        directory.hear(caller);
        *place = Some(directory);
        OldTable {
            naming,
            unlinked,
            chains,
            handle,
        }
    }

    /// How much is left: the objects of the chains, and the record. The caller hears of it, and that nothing else is. It
    /// waits for the directory's lock.
    pub(crate) fn count<W: Caller<B>, R: Wait>(
        self,
        rt: &R,
        lock: &DirectoryLock<'d, P, B, D>,
        caller: &mut W,
    ) -> (OldTable<'d, P, B, D>, usize)
        ensures counted { CountsLeft W.Caller P.QSBR tabled caller.old caller.new self.entry.naming.directory (lengths_of (rights_of (map (λ c. c.seat.me.0) self.entry.chains.items))) result.1 }
        ensures rest { IsRest self.entry.naming.directory self.entry.naming.object (map (λ c. c.seat.me.0) self.entry.chains.items) (option_map (λ u. object_in u.seat.me.0.object) self.entry.unlinked) (W.heard caller.new) }
        ensures many { result.1 ≡ min (one_if self.entry.unlinked + objects_in (map (λ c. c.seat.me.0) self.entry.chains.items)) (2 ^ 64 - 1) }
        ensures heard { IsAfter P.QSBR tabled (W.seen caller.old) (W.heard caller.old) (W.heard caller.new) }
        ensures same { OnlyHears W.Caller caller.old caller.new × (result.0.naming ≡ self.entry.naming) }
    {
        let OldTable {
            naming,
            unlinked,
            mut chains,
            handle,
        } = self;
        lock.hear_all(rt, naming, caller, &mut chains);
        let unlinked = hear_record(&chains, caller, unlinked);
        let heard = OldTable {
            naming,
            unlinked,
            chains,
            handle,
        };
        let left = heard.tell(rt, lock, caller);
        let many = count_objects(&left.chains, left.unlinked.is_some() as usize);
        (left, many)
    }
}
