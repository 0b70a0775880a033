//! Lines read back, and the column of a bad line, where words share a beginning or belong to another actor.

use rcu_model::ObjectId;
use schedule::read_line;
use world::{Line, UpdaterVerb, WorkerVerb};

#[test]
fn lines_of_retiring_are_read(rt: HostRuntime) {
    for (text, line) in [
        (
            b"u2 retire o17\n".as_slice(),
            Line::Updater(2, UpdaterVerb::Retire(ObjectId(17))),
        ),
        (
            b"u0 retire o0\n",
            Line::Updater(0, UpdaterVerb::Retire(ObjectId(0))),
        ),
        (
            b"u1 replace o999999999\n",
            Line::Updater(1, UpdaterVerb::Replace(ObjectId(999_999_999))),
        ),
        (b"u0 barrier\n", Line::Updater(0, UpdaterVerb::Barrier)),
        (b"w7 take\n", Line::Worker(7, WorkerVerb::Take)),
        (b"w0 .\n", Line::Worker(0, WorkerVerb::GoOn)),
    ] {
        assert_eq!(rt; read_line(text), Ok(line));
    }
}
