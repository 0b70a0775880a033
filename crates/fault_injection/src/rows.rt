//! Worked schedules: each line with its answer, by the step table.

use std::alloc::{AllocError, Global};
use world::{Config, Flavour, Layout};

/// A line, and its answer.
pub type Row = (&'static str, &'static str);

/// A section of reader 1 that may be stepped before a worked schedule, and changes no number of it.
#[derive(Clone, Copy, Drop)]
pub struct Spare {
    /// It opens: one event.
    pub begin: [Row; 2],
    /// It looks at an empty chain, which it may do again: one event.
    pub look: Row,
    /// It closes: one event.
    pub end: Row,
}

/// A worked schedule.
#[derive(Clone, Copy, Drop)]
pub struct Worked {
    /// What its header says.
    pub config: Config,
    /// Its first line.
    pub header: &'static str,
    /// The lines after the header, each with its answer.
    pub rows: &'static [Row],
    /// The end line.
    pub end: &'static str,
    /// How many events the answers tell.
    pub events: usize,
    /// What may be stepped before the rows, in a world of their own.
    pub spare: Spare,
}

const SMALL: Config = Config {
    layout: Layout::Narrow,
    flavour: Flavour::Memb,
    readers: 2,
    updaters: 2,
    workers: 1,
    chains: 1,
};

/// Every verb of the general-purpose flavour. Its fifth object, which meets a full list, is one that replaces.
static MEMB: [Row; 62] = [
    ("u0 push c0\n", ".\n"),
    ("u0 .\n", "push c0 o1\n"),
    ("r0 lock\n", ".\n"),
    ("r0 .\n", "open r0.1\n"),
    ("r0 first c0\n", "first r0.1 c0 o1\n"),
    ("r0 next\n", "next r0.1 o1 none\n"),
    ("r0 touch\n", "touch r0.1 o1\n"),
    ("u0 replace o1\n", ".\n"),
    ("u0 .\n", "replace c0 o1 o2\n"),
    ("r0 unlock\n", "close r0.1\n"),
    ("u0 cut o2\n", "cut c0 o2\n"),
    ("u0 retire o1\n", ".\n"),
    ("u0 .\n", "retire o1\n"),
    ("u0 .\n", ".\n"),
    ("u0 .\n", "queue o1 q0\n"),
    ("u0 .\n", ".\n"),
    ("u0 start\n", "ask a1\n"),
    ("u0 poll\n", "wait\n"),
    ("u1 sync\n", "ask a2\n"),
    ("w0 take\n", ".\n"),
    ("w0 .\n", "ask a3\n"),
    ("w0 .\n", ".\n"),
    ("w0 .\n", ".\n"),
    ("w0 .\n", ".\n"),
    ("w0 .\n", ".\n"),
    ("w0 .\n", ".\n"),
    ("w0 .\n", ".\n"),
    ("w0 .\n", ".\n"),
    ("w0 .\n", ".\n"),
    ("w0 .\n", ".\n"),
    ("w0 .\n", "answer a3\n"),
    ("w0 .\n", ".\n"),
    ("w0 .\n", "run o1\n"),
    ("w0 .\n", ".\n"),
    ("u1 .\n", ".\n"),
    ("u1 .\n", "answer a2\n"),
    ("u1 .\n", ".\n"),
    ("u0 poll\n", "answer a1\n"),
    ("u0 barrier\n", "bar b1\n"),
    ("u0 .\n", "clear b1\n"),
    ("u0 sync\n", "ask a4\n"),
    ("u0 .\n", ".\n"),
    ("u0 .\n", ".\n"),
    ("u0 .\n", ".\n"),
    ("u0 .\n", ".\n"),
    ("u0 .\n", ".\n"),
    ("u0 .\n", ".\n"),
    ("u0 .\n", ".\n"),
    ("u0 .\n", ".\n"),
    ("u0 .\n", ".\n"),
    ("u0 .\n", "answer a4\n"),
    ("u0 .\n", ".\n"),
    ("u0 push c0\n", ".\n"),
    ("u0 .\n", "push c0 o3\n"),
    ("u0 replace o3\n", ".\n"),
    ("u0 .\n", "replace c0 o3 o4\n"),
    ("u0 replace o4\n", ".\n"),
    ("u0 .\n", "replace c0 o4 o5\n"),
    ("w0 take\n", "idle\n"),
    ("u0 cut o2\n", "refused E8\n"),
    ("r0 unlock\n", "refused E6\n"),
    ("r0 first c0\n", "refused E6\n"),
];

/// The verbs of readers of the quiescent-state flavour, every verb of the others, and a scan that waits.
static QSBR: [Row; 57] = [
    ("r0 online\n", ".\n"),
    ("r0 .\n", "open r0.1\n"),
    ("u0 push c0\n", ".\n"),
    ("u0 .\n", "push c0 o1\n"),
    ("r0 first c0\n", "first r0.1 c0 o1\n"),
    ("r0 next\n", "next r0.1 o1 none\n"),
    ("r0 touch\n", "touch r0.1 o1\n"),
    ("u0 replace o1\n", ".\n"),
    ("u0 .\n", "replace c0 o1 o2\n"),
    ("u0 retire o1\n", ".\n"),
    ("u0 .\n", "retire o1\n"),
    ("u0 .\n", ".\n"),
    ("u0 .\n", "queue o1 q0\n"),
    ("u0 .\n", ".\n"),
    ("u1 sync\n", "ask a1\n"),
    ("w0 take\n", ".\n"),
    ("w0 .\n", "ask a2\n"),
    ("w0 .\n", ".\n"),
    ("w0 .\n", ".\n"),
    ("w0 .\n", ".\n"),
    ("w0 .\n", ".\n"),
    ("w0 .\n", "wait\n"),
    ("r0 quiescent\n", ".\n"),
    ("r0 .\n", "close r0.1; open r0.2\n"),
    ("w0 .\n", ".\n"),
    ("w0 .\n", ".\n"),
    ("w0 .\n", "answer a2\n"),
    ("w0 .\n", ".\n"),
    ("w0 .\n", "run o1\n"),
    ("w0 .\n", ".\n"),
    ("u1 .\n", ".\n"),
    ("u1 .\n", "answer a1\n"),
    ("u1 .\n", ".\n"),
    ("r0 offline\n", "close r0.2\n"),
    ("u0 cut o2\n", "cut c0 o2\n"),
    ("u0 push c0\n", ".\n"),
    ("u0 .\n", "push c0 o3\n"),
    ("u0 replace o3\n", ".\n"),
    ("u0 .\n", "replace c0 o3 o4\n"),
    ("u0 replace o4\n", ".\n"),
    ("u0 .\n", "replace c0 o4 o5\n"),
    ("u0 start\n", "ask a3\n"),
    ("u0 barrier\n", "bar b1\n"),
    ("u0 .\n", "clear b1\n"),
    ("u0 sync\n", "ask a4\n"),
    ("u0 .\n", ".\n"),
    ("u0 .\n", ".\n"),
    ("u0 .\n", ".\n"),
    ("u0 .\n", ".\n"),
    ("u0 .\n", ".\n"),
    ("u0 .\n", ".\n"),
    ("u0 .\n", "answer a4\n"),
    ("u0 .\n", ".\n"),
    ("u0 poll\n", "answer a3\n"),
    ("r1 first c0\n", "refused E6\n"),
    ("r0 lock\n", "refused E9\n"),
    ("w0 take\n", "idle\n"),
];

const MEMB_SPARE: Spare = Spare {
    begin: [("r1 lock\n", ".\n"), ("r1 .\n", "open r1.1\n")],
    look: ("r1 first c0\n", "first r1.1 c0 none\n"),
    end: ("r1 unlock\n", "close r1.1\n"),
};

const QSBR_SPARE: Spare = Spare {
    begin: [("r1 online\n", ".\n"), ("r1 .\n", "open r1.1\n")],
    look: ("r1 first c0\n", "first r1.1 c0 none\n"),
    end: ("r1 offline\n", "close r1.1\n"),
};

/// The worked schedule of the flavour.
pub fn schedule_of(flavour: Flavour) -> Worked {
    match flavour {
        Flavour::Memb => Worked {
            config: SMALL,
            header: "schedule 1 memb 2 2 1 1\n",
            rows: &MEMB,
            end: "end open=0 waiting=0 run=1\n",
            events: 24,
            spare: MEMB_SPARE,
        },
        Flavour::Qsbr => Worked {
            config: Config {
                flavour: Flavour::Qsbr,
                ..SMALL
            },
            header: "schedule 1 qsbr 2 2 1 1\n",
            rows: &QSBR,
            end: "end open=0 waiting=0 run=1\n",
            events: 26,
            spare: QSBR_SPARE,
        },
    }
}

impl Worked {
    /// The text of the schedule. `AllocError` where memory is refused.
    pub fn text(&self, alloc: Global) -> Result<Vec<u8>, AllocError> {
        let mut text = Vec::new(alloc);
        text.extend_from_slice(self.header.as_bytes())?;
        for (line, _) in self.rows {
            text.extend_from_slice(line.as_bytes())?;
        }
        Ok(text)
    }

    /// What it prints. `AllocError` where memory is refused.
    pub fn printed(&self, alloc: Global) -> Result<Vec<u8>, AllocError> {
        let mut text = Vec::new(alloc);
        for (_, answer) in self.rows {
            text.extend_from_slice(answer.as_bytes())?;
        }
        text.extend_from_slice(self.end.as_bytes())?;
        Ok(text)
    }
}
