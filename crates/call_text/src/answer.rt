//! What a call is answered.

use rcu_model::Refusal;

/// A callback that was called: its ticket, its object, and the code that it answered.
#[derive(Clone, Copy, Debug, PartialEq, Eq, Drop)]
pub struct Called {
    /// Its ticket.
    pub ticket: u64,
    /// The object that was reclaimed.
    pub object: u64,
    /// What the callback answered.
    pub code: u64,
}

/// What a call is answered.
#[derive(Debug, PartialEq, Eq, Drop)]
pub enum Answer {
    /// `ok`
    Done,
    /// `.`: `again` where nothing was refused memory.
    Quiet,
    /// `none`
    Nothing,
    /// `yes` or `no`
    Says(bool),
    /// `would wait`
    WouldWait,
    /// `refused E7`
    Refused(Refusal),
    /// `o3`
    Object(u64),
    /// `ticket 4`
    Ticket(u64),
    /// `17`
    Number(u64),
    /// `7 8 9 10`
    Words([u64; 4]),
    /// `seq 4 records 2 waiting 0 1`, a number for each queue
    Counted {
        seq: u64,
        records: u64,
        waiting: Vec<u64>,
    },
    /// `slots 0 2`
    Slots(Vec<u64>),
    /// `finished 1 o3 5 2 o4 6`, and ` stopped E5` where it stopped early
    Finished {
        called: Vec<Called>,
        stop: Option<Refusal>,
    },
    /// `met 3:30 1:10`
    Met(Vec<(u64, u64)>),
    /// `left 3`
    Left(u64),
    /// `retired 3 left 0 back 53 54`, and ` stopped E16` where it stopped early
    Tidied {
        retired: u64,
        left: u64,
        back: Vec<u64>,
        stop: Option<Refusal>,
    },
}
