//! Rows of cookies.

use poll_cookie::{cookie_of, is_past};
use rcu_model::Refusal;

#[test]
fn cookies(rt: HostRuntime) {
    let rows = [
        (0, 2),
        (1, 4),
        (2, 4),
        (3, 6),
        (4_611_686_018_427_387_903, 4_611_686_018_427_387_906),
    ];
    for (seq, awaited) in rows {
        assert!(rt; cookie_of(seq).is_ok_and(|cookie| is_past(cookie, awaited)));
        assert!(rt; cookie_of(seq).is_ok_and(|cookie| !is_past(cookie, awaited - 1)));
    }
    assert_eq!(rt;
        cookie_of(4_611_686_018_427_387_904),
        Err(Refusal::Exhausted)
    );
}
