//! Queues whose growth may be refused.

use crate::ledger::{Call, Finding, Ledger};
use callback_queue::{CallbackQueue, Item, Ticket};
use poll_cookie::cookie_of;
use rcu_model::{ObjectId, Refusal};
use std::alloc::Global;

/// A queue of items whose jobs are moved, and never copied.
type Queue = CallbackQueue<Box<u64>>;

/// What can be seen of a queue from outside.
#[derive(PartialEq, Eq, Drop)]
struct Seen {
    given: u64,
    segments: (u64, u64, u64),
    first: Option<(Ticket, ObjectId)>,
    is_empty: bool,
    is_closed: bool,
}

impl Seen {
    fn of(queue: &Queue) -> Seen {
        Seen {
            given: queue.given(),
            segments: queue.segments(),
            first: queue.first_ready(),
            is_empty: queue.is_empty(),
            is_closed: queue.is_closed(),
        }
    }
}

/// How many items are pushed.
const ITEMS: u64 = 70;

/// How many of them are ready before the others come.
const EARLY: u64 = 3;

/// The place that an item is pushed into.
#[derive(Clone, Copy, PartialEq, Eq, Drop)]
enum Place {
    /// It was reserved, so the push is not refused.
    Reserved,
    /// It may need memory.
    Fresh,
}

/// Pushes an item that was handed back: it now has a place.
fn push_again(queue: &mut Queue, item: Item<Box<u64>>, place: Ticket) -> Result<(), Finding> {
    if queue.given() == u64::MAX {
        return Err(Finding::Wrong(Call::Push));
    }
    match queue.push(item) {
        Ok(ticket) if ticket == place => Ok(()),
        Ok(_) => Err(Finding::Wrong(Call::Push)),
        Err(_) => Err(Finding::RefusedAgain(Call::Push)),
    }
}

/// Pushes the item of this number, which comes back where it is refused.
fn push(
    ledger: &mut Ledger,
    queue: &mut Queue,
    job: Box<u64>,
    place: Place,
) -> Result<(), Finding> {
    let number = *job;
    let object = ObjectId(number);
    let before = Seen::of(queue);
    if queue.given() == u64::MAX {
        return Err(Finding::Wrong(Call::Push));
    }
    match queue.push(Item { object, job }) {
        Ok(ticket) if ticket == Ticket(number) => Ok(()),
        Err((Refusal::Memory, back)) if place == Place::Fresh => {
            ledger.note(Call::Push);
            if Seen::of(queue) != before || back.object != object || *back.job != number {
                return Err(Finding::Changed(Call::Push));
            }
            push_again(queue, back, Ticket(number))
        }
        _ => Err(Finding::Wrong(Call::Push)),
    }
}

/// Reserves a place. A refusal leaves the queue as it was.
fn reserve(ledger: &mut Ledger, queue: &mut Queue) -> Result<(), Finding> {
    let before = Seen::of(queue);
    if queue.reserve().is_ok() {
        return Ok(());
    }
    ledger.note(Call::Reserve);
    if Seen::of(queue) != before {
        return Err(Finding::Changed(Call::Reserve));
    }
    queue
        .reserve()
        .map_err(|_| Finding::RefusedAgain(Call::Reserve))
}

/// Every third item has its place reserved.
fn place_of(number: u64) -> Place {
    if number % 3 == 0 {
        Place::Reserved
    } else {
        Place::Fresh
    }
}

/// Pushes the items of these numbers.
fn push_all(
    alloc: Global,
    ledger: &mut Ledger,
    queue: &mut Queue,
    first: u64,
    last: u64,
) -> Result<(), Finding> {
    for number in first..=last {
        let job = ledger.again(Call::Own, || Box::new(alloc, number))?;
        let place = place_of(number);
        if place == Place::Reserved {
            reserve(ledger, queue)?;
        }
        push(ledger, queue, job, place)?;
    }
    Ok(())
}

/// Makes all items ready, where none is ready or waits, by a whole grace period from this sequence number on.
fn ripen(queue: &mut Queue, seq: u64) -> Result<(), Finding> {
    let Ok(cookie) = cookie_of(seq) else {
        return Err(Finding::Wrong(Call::Ripen));
    };
    if queue.segments().0 != 0 || queue.segments().1 != 0 || queue.seal() == 0 {
        return Err(Finding::Wrong(Call::Ripen));
    }
    queue.note(cookie);
    if queue.advance(seq + 2) {
        Ok(())
    } else {
        Err(Finding::Wrong(Call::Ripen))
    }
}

/// Takes the items of these numbers out, in order.
fn pop_all(queue: &mut Queue, first: u64, last: u64) -> Result<(), Finding> {
    for number in first..=last {
        match queue.pop_ready() {
            Some((ticket, item)) if ticket == Ticket(number) && *item.job == number => {}
            _ => return Err(Finding::Wrong(Call::PopReady)),
        }
    }
    Ok(())
}

/// A closed queue hands an item back, and needs no memory for it.
fn push_closed(queue: &mut Queue, job: Box<u64>) -> Result<(), Finding> {
    queue.close();
    let before = Seen::of(queue);
    let object = ObjectId(*job);
    if queue.given() == u64::MAX {
        return Err(Finding::Wrong(Call::Push));
    }
    match queue.push(Item { object, job }) {
        Err((Refusal::Closed, back)) if back.object == object && Seen::of(queue) == before => {
            Ok(())
        }
        _ => Err(Finding::Wrong(Call::Push)),
    }
}

/// Pushes items while others are ready, so that the list grows from its middle, closes the queue, and takes all out.
pub fn push_items(alloc: Global, ledger: &mut Ledger) -> Result<u64, Finding> {
    let mut queue = Queue::new(alloc);
    push_all(alloc, ledger, &mut queue, 1, EARLY)?;
    ripen(&mut queue, 0)?;
    pop_all(&mut queue, 1, 1)?;
    push_all(alloc, ledger, &mut queue, EARLY + 1, ITEMS)?;
    let job = ledger.again(Call::Own, || Box::new(alloc, ITEMS + 1))?;
    push_closed(&mut queue, job)?;
    pop_all(&mut queue, 2, EARLY)?;
    ripen(&mut queue, 2)?;
    pop_all(&mut queue, EARLY + 1, ITEMS)?;
    if queue.is_empty() {
        Ok(ITEMS)
    } else {
        Err(Finding::Wrong(Call::PopReady))
    }
}
