//! Texts of answers, judged as their pieces come.

use judging::{Finding, TextJudge};
use rcu_judge::Rule;

/// A text, what is found of it so far, and what is found where it ends.
type Row<'a> = (&'a [u8], Finding, Finding);

const WRONG: Finding = Finding::No {
    at: 2,
    rule: Rule::Section,
};

const ROWS: [Row<'static>; 6] = [
    (b"", Finding::Yes { events: 0 }, Finding::Yes { events: 0 }),
    (
        b".\nopen r0.1\nclose r0.1; open r0.2\n",
        Finding::Yes { events: 3 },
        Finding::Yes { events: 3 },
    ),
    // A line with no end may go on.
    (
        b"open r0.1\nclose r",
        Finding::Yes { events: 1 },
        Finding::BadText { line: 2, column: 8 },
    ),
    // What follows a wrong event is not looked at.
    (b"open r0.1\nclose r0.2\nx", WRONG, WRONG),
    (b"open r0.1\nclose r0.2\nclose r", WRONG, WRONG),
    (
        b"open r0.1\nx\nclose r0.2\n",
        Finding::BadText { line: 2, column: 1 },
        Finding::BadText { line: 2, column: 1 },
    ),
];

/// `TextJudge::feed`, without what it tells.
fn feed(judge: &mut TextJudge, piece: &[u8]) {
    judge.feed(piece);
}

#[test]
fn a_text_is_judged_in_pieces(rt: HostRuntime) {
    for (text, so_far, at_end) in ROWS {
        for length in [1, 7, 4096] {
            let mut judge = TextJudge::new(rt.alloc());
            for piece in text.chunks(length) {
                feed(&mut judge, piece);
            }
            assert_eq!(rt; judge.found(), so_far);
            assert_eq!(rt; judge.found_at_end(), at_end);
        }
    }
}

#[test]
fn what_is_final_stands(rt: HostRuntime) {
    let mut judge = TextJudge::new(rt.alloc());
    feed(&mut judge, b"open r0.1\n");
    assert!(rt; !judge.found().is_final());
    feed(&mut judge, b"close r0.2\n");
    assert_eq!(rt; judge.found(), WRONG);
    feed(&mut judge, b"close r0.1\n");
    assert_eq!(rt; judge.found(), WRONG);
    assert!(rt; judge.found().is_final());
}
