//! Queues by example.

use callback_queue::{Callback, CallbackQueue, Item, Ripe, Ticket};
use poll_cookie::cookie_of;
use rcu_model::{ObjectId, Refusal};

/// An item of this object; its job names the object too.
fn item(object: u64) -> Item<u64> {
    Item {
        object: ObjectId(object),
        job: object,
    }
}

#[test]
fn segments(rt: HostRuntime) {
    let mut queue = CallbackQueue::new(rt.alloc());
    assert_eq!(rt; queue.push(item(1)), Ok(Ticket(1)));
    assert_eq!(rt; queue.push(item(2)), Ok(Ticket(2)));
    assert_eq!(rt; queue.push(item(3)), Ok(Ticket(3)));
    assert_eq!(rt; queue.seal(), 3);
    assert_eq!(rt; queue.push(item(4)), Ok(Ticket(4)));
    assert_eq!(rt; queue.segments(), (0, 3, 1));
    // The cookie of 0 is 2.
    let cookie = cookie_of(0).expect(&rt, "0 is below 2^62");
    queue.note(cookie);
    assert!(rt; !queue.advance(1));
    assert!(rt; queue.advance(2));
    assert_eq!(rt; queue.segments(), (3, 0, 1));
    assert_eq!(rt; queue.first_ready(), Some((Ticket(1), ObjectId(1))));
    assert_eq!(rt; queue.pop_ready(), Some((Ticket(1), item(1))));
    assert_eq!(rt; queue.segments(), (2, 0, 1));
    assert_eq!(rt; queue.given(), 4);
}

#[test]
fn closed_queue_hands_the_item_back(rt: HostRuntime) {
    let mut queue = CallbackQueue::new(rt.alloc());
    assert!(rt; queue.is_empty());
    assert_eq!(rt; queue.push(item(1)), Ok(Ticket(1)));
    queue.close();
    assert!(rt; queue.is_closed());
    assert_eq!(rt; queue.push(item(2)), Err((Refusal::Closed, item(2))));
    assert_eq!(rt; queue.segments(), (0, 0, 1));
    assert!(rt; !queue.is_empty());
}

#[test]
fn reserved_place(rt: HostRuntime) {
    let mut queue = CallbackQueue::new(rt.alloc());
    assert_eq!(rt; queue.reserve(), Ok(()));
    assert_eq!(rt; queue.push(item(1)), Ok(Ticket(1)));
    assert_eq!(rt; queue.pop_ready(), None);
    assert_eq!(rt; queue.first_ready(), None);
}

#[test]
fn waiting_items_move_out(rt: HostRuntime) {
    let mut queue = CallbackQueue::new(rt.alloc());
    assert_eq!(rt; queue.push(item(1)), Ok(Ticket(1)));
    assert_eq!(rt; queue.push(item(2)), Ok(Ticket(2)));
    assert_eq!(rt; queue.seal(), 2);
    assert_eq!(rt; queue.push(item(3)), Ok(Ticket(3)));
    let mut list = Vec::with_capacity(rt.alloc(), 2).expect(&rt, "ample memory");
    queue.take_waiting(&mut list);
    assert_eq!(rt; list.as_slice(), [item(1), item(2)].as_slice());
    assert_eq!(rt; queue.segments(), (0, 0, 1));
    assert_eq!(rt; queue.seal(), 1);
    assert!(rt; !queue.advance(2));
    assert_eq!(rt; queue.given(), 3);
}

#[test]
fn callback_is_called(rt: HostRuntime) {
    let call = Box::new(rt.alloc(), |ripe: Ripe| ripe.payload[0]).expect(&rt, "ample memory");
    let callback = Callback { call };
    let ripe = Ripe {
        object: ObjectId(1),
        payload: [5, 0, 0, 0],
    };
    assert_eq!(rt; (callback.call)(ripe), 5);
}
