//! A reader of limits, whose slot is given back whatever it answers.

use crate::limits::LAST;
use rcu::{AnyChain, Domain, Handle, Memb, NoCallback, Reader, Reading, Refusal, Site, Slot};
use std::sync::Wait;

/// Reads a lower limit, and an upper one, which is one more, until they are the last ones. Answers the lower one, or 0
/// where they were mixed or too old.
pub(crate) struct Newest;

impl<R: Wait> Reading<Memb, AnyChain, NoCallback, R> for Newest {
    type Out = Result<u64, Refusal>;

    fn read<B: Site>(
        &self,
        _rt: &R,
        domain: &Domain<Memb, AnyChain, B, NoCallback>,
        _own: &mut Handle<B>,
        reader: &mut Reader<Memb, AnyChain, B>,
    ) -> Result<u64, Refusal> {
        let limits = Slot::new(domain, 0, (0, 1))?;
        let mut newest = 0;
        for _ in 0..1_000_000_000u64 {
            let mut section = reader.section()?;
            let (lower, upper) = limits.read(&mut section);
            if upper.wrapping_sub(lower) != 1 || lower < newest {
                return Ok(0);
            }
            if lower == LAST {
                return Ok(LAST);
            }
            newest = lower;
        }
        Ok(newest)
    }
}
