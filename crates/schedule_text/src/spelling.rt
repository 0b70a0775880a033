//! The text of headers and lines.

ghost use Rattle.std.specs.Prelude.{◌≡◌, ◌++◌, Some, OnOk, OnErr};
ghost use Rattle.schedule_text.specs.Header.{version, flavour_text, header};
ghost use Rattle.schedule_text.specs.Spelling.{reader_verb, updater_verb, worker_verb, spelling};

use std::alloc::{AllocError, Global};
use std::fmt;
use world_state::{Config, Flavour, Layout, Line, ReaderVerb, UpdaterVerb, WorkerVerb};

/// A verb of a reader, as a line ends with it.
#[derive(Clone, Copy, Drop)]
struct ReaderText(ReaderVerb);

impl fmt::Display for ReaderText {
    ghost output = { λ text. Some (reader_verb text.0) };

    fn fmt<W: fmt::Write>(&self, f: &mut fmt::Formatter<W>) -> fmt::Result {
        match self.0 {
            ReaderVerb::Lock => f.write_str("lock\n"),
            ReaderVerb::Unlock => f.write_str("unlock\n"),
            ReaderVerb::Online => f.write_str("online\n"),
            ReaderVerb::Quiescent => f.write_str("quiescent\n"),
            ReaderVerb::Offline => f.write_str("offline\n"),
            ReaderVerb::First(chain) => writeln!(f, "first c{chain}"),
            ReaderVerb::Next => f.write_str("next\n"),
            ReaderVerb::Touch => f.write_str("touch\n"),
            ReaderVerb::GoOn => f.write_str(".\n"),
        }
    }
}

/// A verb of an updater, as a line ends with it.
#[derive(Clone, Copy, Drop)]
struct UpdaterText(UpdaterVerb);

impl fmt::Display for UpdaterText {
    ghost output = { λ text. Some (updater_verb text.0) };

    fn fmt<W: fmt::Write>(&self, f: &mut fmt::Formatter<W>) -> fmt::Result {
        match self.0 {
            UpdaterVerb::Push(chain) => writeln!(f, "push c{chain}"),
            UpdaterVerb::Replace(object) => writeln!(f, "replace o{}", object.0),
            UpdaterVerb::Cut(object) => writeln!(f, "cut o{}", object.0),
            UpdaterVerb::Retire(object) => writeln!(f, "retire o{}", object.0),
            UpdaterVerb::Sync => f.write_str("sync\n"),
            UpdaterVerb::Start => f.write_str("start\n"),
            UpdaterVerb::Poll => f.write_str("poll\n"),
            UpdaterVerb::Barrier => f.write_str("barrier\n"),
            UpdaterVerb::GoOn => f.write_str(".\n"),
        }
    }
}

/// A verb of a worker, as a line ends with it.
#[derive(Clone, Copy, Drop)]
struct WorkerText(WorkerVerb);

impl fmt::Display for WorkerText {
    ghost output = { λ text. Some (worker_verb text.0) };

    fn fmt<W: fmt::Write>(&self, f: &mut fmt::Formatter<W>) -> fmt::Result {
        match self.0 {
            WorkerVerb::Take => f.write_str("take\n"),
            WorkerVerb::GoOn => f.write_str(".\n"),
        }
    }
}

/// A line, with its line feed.
#[derive(Clone, Copy, Drop)]
struct LineText(Line);

impl fmt::Display for LineText {
    ghost output = { λ text. Some (spelling text.0) };

    fn fmt<W: fmt::Write>(&self, f: &mut fmt::Formatter<W>) -> fmt::Result {
        match self.0 {
            Line::Reader(reader, verb) => write!(f, "r{reader} {}", ReaderText(verb)),
            Line::Updater(updater, verb) => write!(f, "u{updater} {}", UpdaterText(verb)),
            Line::Worker(worker, verb) => write!(f, "w{worker} {}", WorkerText(verb)),
        }
    }
}

/// Writes the line of a schedule at the end, with its line feed. `AllocError` changes nothing.
pub fn print_line(alloc: Global, line: &Line, out: &mut Vec<u8>) -> Result<(), AllocError>
    ensures ok { OnOk result (out.new.items ≡ out.old.items ++ spelling line.now) }
    ensures err { OnErr result (out.new.items ≡ out.old.items) }
{
    let text = LineText(*line).to_string(alloc)?;
    out.extend_from_slice(text.as_bytes())
}

/// How a header of the layout begins.
fn version(layout: Layout) -> &'static str
    ensures { result.now ≡ version layout }
{
    match layout {
        Layout::Narrow => "schedule 1 ",
        Layout::Wide => "schedule 2 ",
    }
}

/// The flavour in a header.
fn flavour_text(flavour: Flavour) -> &'static str
    ensures { result.now ≡ flavour_text flavour }
{
    match flavour {
        Flavour::Memb => "memb ",
        Flavour::Qsbr => "qsbr ",
    }
}

/// A header, with its line feed.
#[derive(Clone, Copy, Drop)]
struct HeaderText(Config);

impl fmt::Display for HeaderText {
    ghost output = { λ text. Some (header text.0) };

    fn fmt<W: fmt::Write>(&self, f: &mut fmt::Formatter<W>) -> fmt::Result {
        let config = self.0;
        f.write_str(version(config.layout))?;
        f.write_str(flavour_text(config.flavour))?;
        writeln!(
            f,
            "{} {} {} {}",
            config.readers, config.updaters, config.workers, config.chains
        )
    }
}

/// Writes the header of a schedule at the end, with its line feed. `AllocError` changes nothing.
pub fn print_header(alloc: Global, config: &Config, out: &mut Vec<u8>) -> Result<(), AllocError>
    ensures ok { OnOk result (out.new.items ≡ out.old.items ++ header config.now) }
    ensures err { OnErr result (out.new.items ≡ out.old.items) }
{
    let text = HeaderText(*config).to_string(alloc)?;
    out.extend_from_slice(text.as_bytes())
}
