//! The draw of a walk: which actor makes the next line, and what it is told.

ghost use Rattle.std.specs.Prelude.{◌≡◌, ◌<◌, ◌≤◌, ◌+◌, IsTrue};
ghost use Rattle.rand_pcg.specs.Lcg.{Lcg};
ghost use Rattle.world_state.specs.Limits.{is_within_limits};
ghost use Rattle.world.specs.Actors.{objects_given};
ghost use Rattle.schedule_text.specs.Spelling.{IsLine, IsReaderVerb, IsUpdaterVerb};
ghost use Rattle.torture_commands.specs.Limits.{is_walk_within};
ghost use Rattle.torture_commands.specs.Drawing.{seeded, draw_below, draw_object, draw_actor, draw_reader_verb};
ghost use Rattle.torture_commands.specs.Drawing.{draw_updater_verb, draw_line};
ghost use Rattle.torture_commands.specs.Drawing.{IsNumberedAmong, actors_in, actor_numbered, who_comes};

use crate::command::{Walk, actors};
use rand_core::SeedableRng;
use rand_core::utils::NextWord;
use rand_pcg::Pcg32;
use rcu_model::ObjectId;
use std::marker::Model;
use world::{Actor, Config, Flavour, Line, ReaderVerb, UpdaterVerb, WorkerVerb, World};

/// What a walk draws from.
#[derive(Drop)]
pub struct Draw {
    words: Pcg32,
}

// Contracts see the generator.
impl Model for Draw {
    ghost Value = { Lcg };

    ghost view = { λ draw. draw.words };

    ghost inverse = { λ generator. record { words = generator } };
}

impl Draw {
    /// The draw that the seed begins.
    pub fn new(seed: u64) -> Draw
        ensures { result ≡ seeded seed }
    {
        Draw {
            words: Pcg32::seed_from_u64(seed),
        }
    }

    /// The next word's remainder.
    fn below(&mut self, bound: u32) -> u32
        requires { 0 < bound }
        ensures limit { result < bound }
        ensures drawn { (result, self.new) ≡ draw_below bound self.old }
    {
        self.words.next_word() % bound
    }

    /// One of the objects given so far, or 0, which is none.
    fn object(&mut self, given: u64) -> ObjectId
        requires { given < 1000000 }
        ensures limit { result.0 ≤ given }
        ensures drawn { (result, self.new) ≡ draw_object given self.old }
    {
        ObjectId(u64::from(self.words.next_word()) % (given + 1))
    }

    /// Who makes the line of this number. In the place of one who has stopped it is the next one.
    fn actor(&mut self, walk: &Walk, number: u32) -> Actor
        requires { IsTrue (is_walk_within walk.now) }
        ensures limit { IsNumberedAmong walk.now.config result }
        ensures drawn { (result, self.new) ≡ draw_actor walk.now number self.old }
    {
        let drawn = self.below(actors(&walk.config));
        actor_of(&walk.config, who_comes(walk, number, drawn))
    }

    /// What a reader in no operation is told.
    fn reader_verb(&mut self, config: &Config) -> ReaderVerb
        requires { (0 < config.now.chains) × (config.now.chains ≤ 64) }
        ensures limit { IsReaderVerb result }
        ensures drawn { (result, self.new) ≡ draw_reader_verb config.now.flavour config.now.chains self.old }
    {
        match config.flavour {
            Flavour::Memb => match self.below(5) {
                0 => ReaderVerb::Lock,
                1 => ReaderVerb::Unlock,
                2 => ReaderVerb::First(self.below(config.chains)),
                3 => ReaderVerb::Next,
                _ => ReaderVerb::Touch,
            },
            Flavour::Qsbr => match self.below(6) {
                0 => ReaderVerb::Online,
                1 => ReaderVerb::Quiescent,
                2 => ReaderVerb::Offline,
                3 => ReaderVerb::First(self.below(config.chains)),
                4 => ReaderVerb::Next,
                _ => ReaderVerb::Touch,
            },
        }
    }

    /// What an updater in no operation is told.
    fn updater_verb(&mut self, config: &Config, given: u64) -> UpdaterVerb
        requires chains { (0 < config.now.chains) × (config.now.chains ≤ 64) }
        requires given { given < 1000000 }
        ensures limit { IsUpdaterVerb result }
        ensures drawn { (result, self.new) ≡ draw_updater_verb config.now.chains given self.old }
    {
        match self.below(8) {
            0 => UpdaterVerb::Push(self.below(config.chains)),
            1 => UpdaterVerb::Replace(self.object(given)),
            2 => UpdaterVerb::Cut(self.object(given)),
            3 => UpdaterVerb::Retire(self.object(given)),
            4 => UpdaterVerb::Sync,
            5 => UpdaterVerb::Start,
            6 => UpdaterVerb::Poll,
            _ => UpdaterVerb::Barrier,
        }
    }

    /// The line of this number, which counts from 1. An actor in an operation goes on, and a worker in none takes: for
    /// these no more than the actor is drawn.
    pub fn line(&mut self, walk: &Walk, number: u32, world: &World) -> Line
        requires walk { IsTrue (is_walk_within walk.now) }
        requires given { objects_given world.now < 1000000 }
        ensures limit { IsLine result }
        ensures drawn { (result, self.new) ≡ draw_line walk.now number world.now self.old }
    {
        let actor = self.actor(walk, number);
        let goes_on = world.is_in_operation(actor);
        match actor {
            Actor::Reader(reader) if goes_on => Line::Reader(reader, ReaderVerb::GoOn),
            Actor::Updater(updater) if goes_on => Line::Updater(updater, UpdaterVerb::GoOn),
            Actor::Worker(worker) if goes_on => Line::Worker(worker, WorkerVerb::GoOn),
            Actor::Reader(reader) => Line::Reader(reader, self.reader_verb(&walk.config)),
            Actor::Updater(updater) => {
                let verb = self.updater_verb(&walk.config, world.objects_given());
                Line::Updater(updater, verb)
            }
            Actor::Worker(worker) => Line::Worker(worker, WorkerVerb::Take),
        }
    }
}

/// Who comes to the line of this number where this one was drawn.
fn who_comes(walk: &Walk, number: u32, drawn: u32) -> u32
    requires config { IsTrue (is_within_limits walk.now.config) }
    requires drawn { drawn < actors_in walk.now.config }
    ensures limit { result < actors_in walk.now.config }
    ensures comes { result ≡ who_comes walk.now number drawn }
{
    match walk.stop {
        Some(stop) if stop.actor == drawn && stop.from <= number => {
            (drawn + 1) % actors(&walk.config)
        }
        _ => drawn,
    }
}

/// The actor of this number: readers first, then updaters, then workers.
fn actor_of(config: &Config, number: u32) -> Actor
    requires number { number < config.now.readers + config.now.updaters + config.now.workers }
    requires config { IsTrue (is_within_limits config.now) }
    ensures limit { IsNumberedAmong config.now result }
    ensures numbered { result ≡ actor_numbered config.now number }
{
    if number < config.readers {
        return Actor::Reader(number);
    }
    let number = number - config.readers;
    if number < config.updaters {
        return Actor::Updater(number);
    }
    Actor::Worker(number - config.updaters)
}
