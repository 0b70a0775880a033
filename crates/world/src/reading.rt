//! The lines of readers.

ghost use Rattle.std.specs.Prelude.{◌≡◌, ◌+◌, ◌≤◌, ◌<◌, ◌^◌, length, slice_get, Some, None};

use crate::board::{Board, at};
use rcu_model::Refusal;
use reader_word::qs_is_online;
use world_state::{ReaderState, ReaderStep, ReaderVerb, WorldPlan};

impl<P: WorldPlan + Drop> Board<P> {
    ghost use Rattle.world_state.specs.declared.line.ReaderVerb.TheVariants.{GoOn};
    ghost use Rattle.world.specs.Chains.{first_row, next_from};
    ghost use Rattle.world.specs.Lines.{reader_line, reader_verb};
    ghost use Rattle.world.specs.Row.{read_step, read_by, made};
    ghost use Rattle.world.specs.Shown.{shown, IsInRange};
    ghost use Rattle.world_state.specs.View.{plans_of};

    /// A line of a reader.
    pub fn reader_line(
        &self,
        reader: u32,
        state: ReaderState,
        verb: ReaderVerb,
    ) -> Result<ReaderStep, Refusal>
        requires range { IsInRange (plans_of P.QSBR P.made P.action P.turn P.taken) (shown self.now) }
        requires there { slice_get (shown self.now).readers reader ≡ Some state }
        ensures { read_step {P = P} reader result ≡ made (read_by reader (reader_line P.QSBR (shown self.now) reader state verb)) }
    {
        if verb == ReaderVerb::GoOn {
            return self.reader_on(reader, state);
        }
        if state.copy.is_some() {
            return Err(Refusal::Busy);
        }
        self.reader_begins(reader, state, verb)
    }

    /// The second step of `lock`, `online` or `quiescent`.
    fn reader_on(&self, reader: u32, state: ReaderState) -> Result<ReaderStep, Refusal>
        requires range { IsInRange (plans_of P.QSBR P.made P.action P.turn P.taken) (shown self.now) }
        requires there { slice_get (shown self.now).readers reader ≡ Some state }
        ensures { read_step {P = P} reader result ≡ made (read_by reader (reader_line P.QSBR (shown self.now) reader state GoOn)) }
    {
        let Some(copy) = state.copy else {
            return Err(Refusal::NotOpen);
        };
        if !P::QSBR {
            return state.enter(reader, self.kept.layout, copy);
        }
        if qs_is_online(state.word) {
            Ok(state.announce(reader, copy))
        } else {
            Ok(state.go_online(reader, copy))
        }
    }

    /// A verb of a reader that is in no operation.
    fn reader_begins(
        &self,
        reader: u32,
        state: ReaderState,
        verb: ReaderVerb,
    ) -> Result<ReaderStep, Refusal>
        requires { state.copy ≡ None }
        ensures { read_step {P = P} reader result ≡ made (read_by reader (reader_verb P.QSBR (shown self.now) reader state verb)) }
    {
        match verb {
            ReaderVerb::Lock | ReaderVerb::Unlock if P::QSBR => Err(Refusal::WrongFlavour),
            ReaderVerb::Lock => state.lock(self.kept.layout, self.kept.grace.word),
            ReaderVerb::Unlock => state.unlock(reader, self.kept.layout),
            ReaderVerb::Online | ReaderVerb::Quiescent | ReaderVerb::Offline if !P::QSBR => {
                Err(Refusal::WrongFlavour)
            }
            ReaderVerb::Online => state.online(self.kept.grace.word),
            ReaderVerb::Quiescent => state.quiescent(self.kept.grace.word),
            ReaderVerb::Offline => state.offline(reader),
            ReaderVerb::GoOn => Err(Refusal::NotOpen),
            _ if !state.is_in_section(P::QSBR, self.kept.layout) => Err(Refusal::NotOpen),
            ReaderVerb::First(chain) => self.first(reader, state, chain),
            ReaderVerb::Next => self.next(reader, state),
            ReaderVerb::Touch => state.touch(reader),
        }
    }

    fn first(&self, reader: u32, state: ReaderState, chain: u32) -> Result<ReaderStep, Refusal>
        ensures { read_step {P = P} reader result ≡ made (read_by reader (first_row reader state chain (slice_get (shown self.now).heads chain))) }
    {
        let Some(found) = at(&self.kept.heads, chain as usize) else {
            return Err(Refusal::NoPlace);
        };
        Ok(state.first(reader, chain, found))
    }

    fn next(&self, reader: u32, state: ReaderState) -> Result<ReaderStep, Refusal>
        ensures { read_step {P = P} reader result ≡ made (read_by reader (next_from (shown self.now) reader state state.cursor)) }
    {
        let Some(from) = state.cursor else {
            return Err(Refusal::NoPlace);
        };
        let Some(object) = at(&self.kept.objects, from.0 as usize) else {
            return Err(Refusal::NoPlace);
        };
        Ok(state.next(reader, from, object.link))
    }
}
