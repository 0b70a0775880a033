//! An event loop in the quiescent-state flavour: it holds what it reads for a whole turn, and announces between turns.

use rcu::{AnyChain, Domain, Handle, NoCallback, Program, Qsbr, Reader, Refusal, Site, Slot};
use std::alloc::Global;
use std::sync::Wait;

/// The turns of the loop.
const TURNS: u64 = 1_000;

type Current<'d, B> = Slot<'d, Qsbr, B, NoCallback, u64>;

/// One turn: the event is handled by the value that is found now.
fn handle<B: Site>(
    current: &Current<'_, B>,
    reader: &mut Reader<Qsbr, AnyChain, B>,
) -> Result<u64, Refusal> {
    let mut section = reader.section()?;
    Ok(current.read(&mut section))
}

/// Turns with an announcement after each, and then offline, as before a wait for input. Answers how many found a 7.
fn turns<B: Site>(
    current: &Current<'_, B>,
    reader: &mut Reader<Qsbr, AnyChain, B>,
) -> Result<u64, Refusal> {
    reader.online()?;
    let mut found = 0;
    for number in 0..TURNS {
        if handle(current, reader)? == 7 {
            found = number + 1;
        }
        reader.quiescent()?;
    }
    reader.offline().map(|()| found)
}

/// A loop, and a grace period once it is offline, which waits for nobody.
#[derive(Drop)]
pub(crate) struct EventLoop;

impl<R: Wait> Program<Qsbr, AnyChain, NoCallback, R> for EventLoop {
    type Out = Result<u64, Refusal>;

    fn run<B: Site>(
        self,
        rt: &R,
        _alloc: Global,
        domain: &Domain<Qsbr, AnyChain, B, NoCallback>,
        mut own: Handle<B>,
    ) -> Result<u64, Refusal> {
        let current = Slot::new(domain, 0, 7)?;
        let mut reader = domain.register(rt, &mut own)?;
        let found = turns(&current, &mut reader);
        if let Err((refusal, _)) = reader.unregister(&mut own) {
            return Err(refusal);
        }
        domain.synchronize(rt, &mut own)?;
        found
    }
}
