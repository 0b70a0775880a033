//! Rows of words, locks and unlocks in both layouts.

use Layout::{Narrow, Wide};
use rcu_model::Refusal;
use reader_word::{
    Layout, count, entered, is_open, left, phase_of, qs_announced, qs_is_online, qs_stands_in_way,
    stands_in_way,
};

#[test]
fn locks(rt: HostRuntime) {
    let rows = [
        (Narrow, 65_535, false, Err(Refusal::NestFull)),
        (Narrow, 65_534, true, Ok(65_535)),
        (Narrow, 0, true, Ok(65_537)),
        (Narrow, 65_536, false, Ok(1)),
        (Wide, 2_147_483_647, false, Err(Refusal::NestFull)),
        (Wide, 2_147_483_646, true, Ok(2_147_483_647)),
        (Wide, 0, true, Ok(4_294_967_297)),
    ];
    for (layout, word, phase, stored) in rows {
        assert_eq!(rt; entered(layout, word, phase), stored);
    }
}

#[test]
fn unlocks(rt: HostRuntime) {
    let rows = [
        (Narrow, 65_537, Ok(65_536)),
        (Narrow, 65_536, Err(Refusal::NotOpen)),
        (Wide, 4_294_967_297, Ok(4_294_967_296)),
        (Wide, 4_294_967_296, Err(Refusal::NotOpen)),
    ];
    for (layout, word, stored) in rows {
        assert_eq!(rt; left(layout, word), stored);
    }
}

#[test]
fn scanned_words(rt: HostRuntime) {
    let rows = [
        (Narrow, 65_537, 1, true, true),
        (Narrow, 65_536, 0, true, false),
        (Narrow, 1, 1, false, false),
        (Wide, 4_294_967_297, 1, true, true),
        (Wide, 4_294_967_296, 0, true, false),
    ];
    for (layout, word, nested, phase, in_way) in rows {
        assert_eq!(rt; count(layout, word), nested);
        assert_eq!(rt; is_open(layout, word), nested > 0);
        assert_eq!(rt; phase_of(layout, word), phase);
        assert_eq!(rt; stands_in_way(layout, word, false), in_way);
    }
}

#[test]
fn announcements(rt: HostRuntime) {
    // An offline reader is in nobody's way; an announced number is in the way of every other one.
    let rows = [
        (0, false, false, false),
        (qs_announced(6), true, true, false),
        (qs_announced(7), true, false, true),
    ];
    for (word, online, before_seven, before_six) in rows {
        assert_eq!(rt; qs_is_online(word), online);
        assert_eq!(rt; qs_stands_in_way(word, 7), before_seven);
        assert_eq!(rt; qs_stands_in_way(word, 6), before_six);
    }
}
