//! How what earlier directories left is retired.

ghost use Rattle.std.specs.Prelude.{◌≡◌, ◌⊎◌, ◌+◌, ◌%◌, ◌^◌, ◌-◌, ◌<◌, ◌++◌, ◌∷◌, [], ℕ, List, None, Some, IfErr, IfNone, IfOk, IfSome, IsSome, length, map, min, option_map, vec_len};
ghost use Rattle.rcu_model.specs.Sets.{In};
ghost use Rattle.rcu_model.specs.declared.event.ObjectId.{ObjectId};
ghost use Rattle.live_log.specs.declared.event.LiveEvent.TheVariants.{Object};
ghost use Rattle.live_log.specs.declared.event.ObjectEvent.TheVariants.{Retire};
ghost use Rattle.live_log.specs.Log.{Begins, Has, IsLiveRun, Log};
ghost use Rattle.live_log.specs.Tables.{tabled};
ghost use Rattle.rcu_list.specs.live_rule.Places.{hold_at};
ghost use Rattle.rcu_list.specs.live_rule.declared.view.Look.{Look};
ghost use Rattle.rcu_list.specs.live_rule.declared.view.Look.TheVariants.{Stored};
ghost use Rattle.rcu_list.specs.live_rule.Rights.{object_in};
ghost use Rattle.rcu_list.specs.live_read.Hearing.{IsAfter, MakesMany, OnlyHears, Stays};
ghost use Rattle.rcu_list.specs.live_write.Chains.{list_in};
ghost use Rattle.rcu_hash.specs.Tidying.{ClearsNote, CountsLeft, EndsTidying, FindsFrees, HasWaited, IsLeft, IsLinked, IsRecord, IsRefused, IsQueueAmong, IsRest, IsStopped, IsTidied, RetiresObject, StopsTidying, UsesUp, WasCleared, chains_in, numbers_of, objects_in};
ghost use Rattle.rcu_hash.specs.Writers.{AreFrom, Each, HasNothing};

use crate::directory::{DirectoryLock, Naming};
use crate::labelled::take;
use crate::old_table::OldTable;
use crate::table::RcuHash;
use gp_memb::GracePlan;
use live_log::Tabled;
use rcu_list::{Callback, Caller, Chain, Deleter, Domain, Site, Ticket, Unlinked};
use rcu_model::Refusal;
use std::sync::Wait;

/// What a tidying came to.
#[derive(Drop)]
pub struct TidyEnd<D = Callback> {
    /// How many objects it retired.
    pub retired: usize,
    /// How many objects are left that an earlier directory left.
    pub left: usize,
    /// The callbacks that it did not use.
    pub jobs: Vec<D>,
    /// Why it stopped, where objects are left.
    pub stop: Option<Refusal>,
}

impl<D> TidyEnd<D> {
    /// Nothing is left.
    fn done(retired: usize, jobs: Vec<D>) -> TidyEnd<D>
        ensures { (result.retired ≡ retired) × (result.left ≡ 0) × (result.jobs ≡ jobs) × (result.stop ≡ None) }
    {
        TidyEnd {
            retired,
            left: 0,
            jobs,
            stop: None,
        }
    }

    /// This many are left, for this reason; or none.
    fn stopped(retired: usize, left: usize, jobs: Vec<D>, why: Refusal) -> TidyEnd<D>
        ensures { (result.retired ≡ retired) × (result.left ≡ left) × (result.jobs ≡ jobs) × IfNone result.stop (left ≡ 0) × IfSome result.stop (λ e. (e ≡ why) × (0 < left)) }
    {
        TidyEnd {
            retired,
            left,
            jobs,
            stop: if left == 0 { None } else { Some(why) },
        }
    }
}

impl<'d, P: GracePlan + Drop, B: Site, D: Deleter> DirectoryLock<'d, P, B, D> {
    /// Cuts the first object of a chain that an earlier directory named, and retires it. It waits for the locks of the
    /// directory and of the queue.
    ///
    /// Refused as `retire`; then the callback comes back.
    fn retire_first<W: Caller<B>, R: Wait>(
        &self,
        rt: &R,
        naming: Naming,
        caller: &mut W,
        chain: &mut Chain<'_, P, Tabled, B, D>,
        job: D,
    ) -> Result<Ticket, (Refusal, D)>
        requires waited { HasWaited naming.directory naming.object (W.heard caller.old) }
        requires chain { IsLeft naming.directory naming.first naming.buckets chain.old.seat.me.0 }
        requires some { 0 < length (list_in chain.old.seat.me.0) }
        ensures retired { IfOk result (λ _. RetiresObject P.QSBR tabled B.sizes naming.directory (W.seen caller.old) (W.heard caller.old) (D.row.coded.code job) (W.heard caller.new) × (length (list_in chain.old.seat.me.0) ≡ length (list_in chain.new.seat.me.0) + 1)) }
        ensures refused { IfErr result (λ e. (e.1 ≡ job) × IsRefused W.Caller caller.new (λ q. q ≡ chain.old.number % B.sizes.queues) e.0 × (list_in chain.new.seat.me.0 ≡ list_in chain.old.seat.me.0)) }
        ensures chain { IsLeft naming.directory naming.first naming.buckets chain.new.seat.me.0 }
        ensures number { chain.new.number ≡ chain.old.number }
        ensures heard { Begins (W.heard caller.old) (W.heard caller.new) }
        ensures changes { IfOk result (λ _. MakesMany W.Caller caller.old caller.new 1) × IfErr result (λ _. Stays W.Caller caller.old caller.new) }
        ensures same { FindsFrees W.Caller B.sizes caller.old caller.new }
    {
        let domain = chain.domain();
        let (mut place, lent) = self.lend(rt, naming, chain);
        let answer = domain.cut_retire(rt, caller, chain, 0, job);
        *place = Some(lent.take_back(chain));
        answer
    }

    /// Retires all objects of a chain that an earlier directory named, as long as there are callbacks.
    ///
    /// Refused where those run out, else as `retire`.
    fn retire_all<W: Caller<B>, R: Wait>(
        &self,
        rt: &R,
        naming: Naming,
        caller: &mut W,
        chain: &mut Chain<'_, P, Tabled, B, D>,
        jobs: &mut Vec<D>,
    ) -> Result<(), Refusal>
        requires waited { HasWaited naming.directory naming.object (W.heard caller.old) }
        requires chain { IsLeft naming.directory naming.first naming.buckets chain.old.seat.me.0 }
        ensures uses { UsesUp P.QSBR B.sizes naming.directory W.Caller D.row.coded.code caller.old caller.new jobs.old.items jobs.new.items }
        ensures emptied { IfOk result (λ _. HasNothing chain.new.seat.me.0) }
        ensures stopped { IfErr result (λ e. (0 < length (list_in chain.new.seat.me.0)) × IsStopped W.Caller caller.new (λ q. q ≡ chain.old.number % B.sizes.queues) jobs.new.items e) }
        ensures chain { IsLeft naming.directory naming.first naming.buckets chain.new.seat.me.0 }
        ensures number { chain.new.number ≡ chain.old.number }
    {
        let many = chain.len();
        for _ in 0..many {
            let Some(job) = jobs.pop() else {
                return Err(Refusal::FewJobs);
            };
            if let Err((refusal, job)) = self.retire_first(rt, naming, caller, chain, job) {
                jobs.push_reserved(job);
                return Err(refusal);
            }
        }
        Ok(())
    }

    /// Gives back an empty chain that an earlier directory named, without its note. It waits for the directory's lock.
    fn give_back<W: Caller<B>, R: Wait>(
        &self,
        rt: &R,
        naming: Naming,
        caller: &mut W,
        chain: Chain<'_, P, Tabled, B, D>,
    )
        requires waited { HasWaited naming.directory naming.object (W.heard caller.old) }
        requires chain { IsLeft naming.directory naming.first naming.buckets chain.seat.me.0 }
        requires nothing { HasNothing chain.seat.me.0 }
        ensures cleared { (log : Log) × ClearsNote P.QSBR tabled B.sizes naming.directory (W.seen caller.old) (W.heard caller.old) chain.entry.number log × Begins log (W.heard caller.new) }
        ensures own { WasCleared (W.heard caller.old) chain.entry.number (W.heard caller.new) }
        ensures freed { W.looks caller.new ≡ Stored (hold_at B.sizes chain.entry.number) 0 ∷ W.looks caller.old }
        ensures same { MakesMany W.Caller caller.old caller.new 1 × (W.loads caller.new ≡ W.loads caller.old) }
    {
        let mut chain = chain;
        let (mut place, lent) = self.lend(rt, naming, &mut chain);
        chain.set_note(caller, 0);
        *place = Some(lent.take_back(&mut chain));
        chain.release(caller);
    }

    /// Retires all objects of these chains and gives them back, from the last one, as long as there are callbacks.
    ///
    /// Refused where those run out, else as `retire`; then the chains that are left have objects.
    fn clear_all<W: Caller<B>, R: Wait>(
        &self,
        rt: &R,
        naming: Naming,
        caller: &mut W,
        chains: &mut Vec<Chain<'d, P, Tabled, B, D>>,
        jobs: &mut Vec<D>,
    ) -> Result<(), Refusal>
        requires waited { HasWaited naming.directory naming.object (W.heard caller.old) }
        requires chains { Each (IsLeft naming.directory naming.first naming.buckets) (map (λ c. c.seat.me.0) chains.old.items) }
        ensures uses { UsesUp P.QSBR B.sizes naming.directory W.Caller D.row.coded.code caller.old caller.new jobs.old.items jobs.new.items }
        ensures chains { Each (IsLeft naming.directory naming.first naming.buckets) (map (λ c. c.seat.me.0) chains.new.items) }
        ensures emptied { IfOk result (λ _. chains.new.items ≡ []) }
        ensures cleared { (c : ℕ) → In (chains_in (map (λ c. c.seat.me.0) chains.old.items)) c → WasCleared (W.heard caller.old) c (W.heard caller.new) ⊎ In (chains_in (map (λ c. c.seat.me.0) chains.new.items)) c }
        ensures row { (first : ℕ) → AreFrom first (map (λ c. c.seat.me.0) chains.old.items) → AreFrom first (map (λ c. c.seat.me.0) chains.new.items) }
        ensures stopped { IfErr result (λ e. (0 < objects_in (map (λ c. c.seat.me.0) chains.new.items)) × IsStopped W.Caller caller.new (λ q. (c : ℕ) × In (chains_in (map (λ c. c.seat.me.0) chains.new.items)) c × (q ≡ c % B.sizes.queues)) jobs.new.items e) }
    {
        let many = chains.len();
        for _ in 0..many {
            let Some(mut chain) = chains.pop() else {
                unreachable!()
            };
            if let Err(refusal) = self.retire_all(rt, naming, caller, &mut chain, jobs) {
                chains.push_reserved(chain);
                return Err(refusal);
            }
            self.give_back(rt, naming, caller, chain);
        }
        Ok(())
    }
}

/// Retires the record of an earlier directory, where it is not retired.
///
/// Refused where there is no callback for it, else as `retire`; then it is where it was.
fn retire_record<P: GracePlan + Drop, B: Site, D: Deleter, W: Caller<B>, R: Wait>(
    rt: &R,
    domain: &Domain<P, Tabled, B, D>,
    caller: &mut W,
    replaced: &mut Option<Unlinked<B>>,
    jobs: &mut Vec<D>,
) -> Result<(), Refusal>
    ensures uses { (d : ℕ) → IfSome replaced.old (λ u. IsRecord d u.chain u.seat.me.0) → UsesUp P.QSBR B.sizes d W.Caller D.row.coded.code caller.old caller.new jobs.old.items jobs.new.items }
    ensures retired { IfOk result (λ _. replaced.new ≡ None) }
    ensures told { (o : ObjectId) → option_map (λ u. object_in u.seat.me.0.object) replaced.old ≡ Some o → Has (Object (Retire o)) (W.heard caller.new) ⊎ (option_map (λ u. object_in u.seat.me.0.object) replaced.new ≡ Some o) }
    ensures kept { (replaced.new ≡ None) ⊎ (replaced.new ≡ replaced.old) }
    ensures stopped { IfErr result (λ e. IsSome replaced.new × ((d : ℕ) → IfSome replaced.old (λ u. IsRecord d u.chain u.seat.me.0) → IsStopped W.Caller caller.new (λ q. q ≡ d % B.sizes.queues) jobs.new.items e)) }
{
    let Some(unlinked) = replaced.take() else {
        return Ok(());
    };
    let Some(job) = jobs.pop() else {
        *replaced = Some(unlinked);
        return Err(Refusal::FewJobs);
    };
    match domain.retire(rt, caller, unlinked, job) {
        Ok(_) => Ok(()),
        Err((refusal, unlinked, job)) => {
            *replaced = Some(unlinked);
            jobs.push_reserved(job);
            Err(refusal)
        }
    }
}

impl<'d, P: GracePlan + Drop, B: Site, D: Deleter> RcuHash<'d, P, B, D> {
    /// The caller hears of a log in which nothing is left; or else of one in which this directory is linked. It waits
    /// for the table's locks.
    fn find_left<W: Caller<B>, R: Wait>(&self, rt: &R, caller: &mut W) -> Option<Naming>
        ensures none { IfNone result (IsTidied self.now.directory (W.heard caller.new)) }
        ensures some { IfSome result (λ n. (n.directory ≡ self.now.directory) × IsLinked n.directory n.object (W.heard caller.new)) }
        ensures heard { IsAfter P.QSBR tabled (W.seen caller.old) (W.heard caller.old) (W.heard caller.new) }
        ensures same { OnlyHears W.Caller caller.old caller.new }
    {
        let (mut place, left) = take(rt, &self.left, self.directory);
        let left = left.tell(rt, &self.lock, caller);
        let naming = left.naming;
        let none = left.chains.len() == 0;
        *place = Some(left);
        if none { None } else { Some(naming) }
    }

    /// Retires these after the grace period that was waited for: first the record, then the objects of the chains.
    ///
    /// Refused where callbacks run out, else as `retire`.
    fn retire_left<W: Caller<B>, R: Wait>(
        &self,
        rt: &R,
        caller: &mut W,
        naming: Naming,
        replaced: &mut Option<Unlinked<B>>,
        chains: &mut Vec<Chain<'d, P, Tabled, B, D>>,
        jobs: &mut Vec<D>,
    ) -> Result<(), Refusal>
        requires waited { HasWaited naming.directory naming.object (W.heard caller.old) }
        requires record { IfSome replaced.old (λ u. IsRecord naming.directory u.chain u.seat.me.0) }
        requires chains { (IsSome replaced.old → 0 < vec_len chains.old) × Each (IsLeft naming.directory naming.first naming.buckets) (map (λ c. c.seat.me.0) chains.old.items) }
        ensures kept { (replaced.new ≡ None) ⊎ (replaced.new ≡ replaced.old) }
        ensures told { (o : ObjectId) → option_map (λ u. object_in u.seat.me.0.object) replaced.old ≡ Some o → Has (Object (Retire o)) (W.heard caller.new) ⊎ (option_map (λ u. object_in u.seat.me.0.object) replaced.new ≡ Some o) }
        ensures cleared { (c : ℕ) → In (chains_in (map (λ c. c.seat.me.0) chains.old.items)) c → WasCleared (W.heard caller.old) c (W.heard caller.new) ⊎ In (chains_in (map (λ c. c.seat.me.0) chains.new.items)) c }
        ensures done { IfOk result (λ _. (chains.new.items ≡ []) × (replaced.new ≡ None)) }
        ensures chains { IfErr result (λ _. 0 < vec_len chains.new) × Each (IsLeft naming.directory naming.first naming.buckets) (map (λ c. c.seat.me.0) chains.new.items) }
        ensures uses { UsesUp P.QSBR B.sizes naming.directory W.Caller D.row.coded.code caller.old caller.new jobs.old.items jobs.new.items }
        ensures row { (first : ℕ) → AreFrom first (map (λ c. c.seat.me.0) chains.old.items) → AreFrom first (map (λ c. c.seat.me.0) chains.new.items) }
        ensures stopped { IfErr result (λ e. (IsSome replaced.new ⊎ (0 < objects_in (map (λ c. c.seat.me.0) chains.new.items))) × IsStopped W.Caller caller.new (IsQueueAmong B.sizes naming.directory (chains_in (map (λ c. c.seat.me.0) chains.new.items))) jobs.new.items e) }
    {
        retire_record(rt, self.domain, caller, replaced, jobs)?;
        self.lock.clear_all(rt, naming, caller, chains, jobs)
    }

    /// What is left of the directories before this one, with a handle that has heard of as much as the caller does
    /// then. It waits for the directory's lock.
    fn set_down<W: Caller<B>, R: Wait>(
        &self,
        rt: &R,
        caller: &mut W,
        naming: Naming,
        unlinked: Option<Unlinked<B>>,
        chains: Vec<Chain<'d, P, Tabled, B, D>>,
    ) -> OldTable<'d, P, B, D>
        requires some { IsSome unlinked → 0 < vec_len chains }
        requires record { IfSome unlinked (λ u. IsRecord naming.directory u.chain u.seat.me.0) }
        requires chains { Each (IsLeft naming.directory naming.first naming.buckets) (map (λ c. c.seat.me.0) chains.items) }
        requires rest { (log : Log) → Begins (W.heard caller.old) log → IsLiveRun P.QSBR tabled log → IsLinked naming.directory naming.object log → IsRest naming.directory naming.object (map (λ c. c.seat.me.0) chains.items) (option_map (λ u. object_in u.seat.me.0.object) unlinked) log }
        ensures rest { IsRest naming.directory naming.object (map (λ c. c.seat.me.0) chains.entry.items) (option_map (λ u. object_in u.seat.me.0.object) unlinked) (W.heard caller.new) }
        ensures old { (result.naming ≡ naming) × (result.chains ≡ chains.entry) × (result.unlinked ≡ unlinked) }
        ensures heard { IsAfter P.QSBR tabled (W.seen caller.old) (W.heard caller.old) (W.heard caller.new) }
        ensures same { OnlyHears W.Caller caller.old caller.new }
    {
        self.lock.hear(rt, naming, caller);
        let handle = self.domain.split(caller);
        OldTable {
            naming,
            unlinked,
            chains,
            handle,
        }
    }

    /// Retires what the directories before this one left, after the grace period that was waited for while it was
    /// linked. Where another one has taken its place since, the callbacks come back.
    fn retire_behind<W: Caller<B>, R: Wait>(
        &self,
        rt: &R,
        caller: &mut W,
        naming: Naming,
        jobs: Vec<D>,
    ) -> Result<TidyEnd<D>, Vec<D>>
        requires directory { naming.directory ≡ self.now.directory }
        requires waited { HasWaited naming.directory naming.object (W.heard caller.old) }
        ensures jobs { IfOk result (λ r. (used : List D) × (jobs.items ≡ r.jobs.items ++ used) × (length used ≡ r.retired)) }
        ensures uses { IfOk result (λ r. UsesUp P.QSBR B.sizes naming.directory W.Caller D.row.coded.code caller.old caller.new jobs.items r.jobs.items) }
        ensures done { IfOk result (λ r. IfNone r.stop ((r.left ≡ 0) × IsTidied naming.directory (W.heard caller.new))) }
        ensures stopped { IfOk result (λ r. IfSome r.stop (λ e. (0 < r.left) × ((chains : List (ℕ × ℕ)) × CountsLeft W.Caller P.QSBR tabled caller.old caller.new naming.directory chains r.left × IsStopped W.Caller caller.new (IsQueueAmong B.sizes naming.directory (numbers_of chains)) r.jobs.items e))) }
        ensures heard { IfOk result (λ _. IsLiveRun P.QSBR tabled (W.heard caller.new)) }
        ensures back { IfErr result (λ js. (js ≡ jobs) × (caller.new ≡ caller.old)) }
    {
        let (mut place, left) = take(rt, &self.left, self.directory);
        let is_its = left.naming.is(naming);
        if !is_its {
            *place = Some(left);
            return Err(jobs);
        }
        let left = left.tell(rt, &self.lock, caller);
        let OldTable {
            naming: _,
            unlinked: mut replaced,
            mut chains,
            handle: _,
        } = left;
        let mut jobs = jobs;
        let many = jobs.len();
        let answer = self.retire_left(rt, caller, naming, &mut replaced, &mut chains, &mut jobs);
        let retired = many - jobs.len();
        let old = self.set_down(rt, caller, naming, replaced, chains);
        match answer {
            Ok(()) => {
                *place = Some(old);
                Ok(TidyEnd::done(retired, jobs))
            }
            Err(refusal) => {
                let (old, left) = old.count(rt, &self.lock, caller);
                *place = Some(old);
                Ok(TidyEnd::stopped(retired, left, jobs, refusal))
            }
        }
    }

    /// How much is left. The caller hears of it.
    fn count_left<W: Caller<B>, R: Wait>(&self, rt: &R, caller: &mut W) -> usize
        ensures counted { (chains : List (ℕ × ℕ)) × CountsLeft W.Caller P.QSBR tabled caller.old caller.new self.now.directory chains result }
        ensures heard { IsAfter P.QSBR tabled (W.seen caller.old) (W.heard caller.old) (W.heard caller.new) }
        ensures same { OnlyHears W.Caller caller.old caller.new }
    {
        let (mut place, left) = take(rt, &self.left, self.directory);
        let (left, many) = left.count(rt, &self.lock, caller);
        *place = Some(left);
        many
    }

    /// Retires what earlier directories left, one callback each, from the back. Where something is left it waits for a
    /// grace period first, liburcu's `synchronize_rcu`, so a caller has no section or lock open, and is offline where
    /// its reader is of the quiescent-state flavour. What callbacks it does not use come back. Where nothing is left
    /// each record is retired, and each chain of an earlier directory has lost its note. A chain that loses its note is
    /// given back. Where another thread has made the table grow meanwhile, it waits for another grace period.
    ///
    /// It stops with `FewJobs` where callbacks run out while objects are left, with `Exhausted` where the grace period
    /// is refused, and with `Closed` or `Memory` as `retire`. Then it answers how many objects are left, and the caller
    /// hears that nothing else is. While it waits for the grace period it holds no lock: writers and readers go on, and a growth is
    /// refused with `Busy`.
    pub fn tidy<W: Caller<B>, R: Wait>(&self, rt: &R, caller: &mut W, jobs: Vec<D>) -> TidyEnd<D>
        ensures jobs { (used : List D) × (jobs.items ≡ result.jobs.items ++ used) × (length used ≡ result.retired) }
        ensures tidied { EndsTidying W.Caller P.QSBR tabled caller.old caller.new B.sizes self.now.directory D.row.coded.code jobs.items result.jobs.items }
        ensures done { IfNone result.stop ((result.left ≡ 0) × IsTidied self.now.directory (W.heard caller.new)) }
        ensures stopped { IfSome result.stop (λ e. StopsTidying W.Caller P.QSBR tabled caller.old caller.new B.sizes self.now.directory result e) }
        ensures heard { IsAfter P.QSBR tabled (W.seen caller.old) (W.heard caller.old) (W.heard caller.new) }
        ensures same { (found : List Look) × (W.looks caller.new ≡ found ++ W.looks caller.old) }
    {
        let mut jobs = jobs;
        for _ in rt.forever() {
            let Some(naming) = self.find_left(rt, caller) else {
                return TidyEnd::done(0, jobs);
            };
            if let Err(refusal) = self.domain.synchronize(rt, caller) {
                let left = self.count_left(rt, caller);
                if left > 0 {
                    return TidyEnd::stopped(0, left, jobs, refusal);
                }
                continue;
            }
            jobs = match self.retire_behind(rt, caller, naming, jobs) {
                Ok(end) => return end,
                Err(back) => back,
            };
        }
        unreachable!()
    }
}
