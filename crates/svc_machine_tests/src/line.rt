//! Tests of a line's bits, by their weights.

use bitflags::Flags;
use svc_line::LineBits;

// Bits by their weights: V 1, S 2, L 4, C 8 and T 16.
fn bits(number: u8) -> LineBits {
    LineBits::from_bits_retain(number)
}

#[test]
fn the_bits_have_their_weights(rt: HostRuntime) {
    let weights = [
        LineBits::VALID.bits(),
        LineBits::STORE.bits(),
        LineBits::LOAD.bits(),
        LineBits::COMMIT.bits(),
        LineBits::STALE.bits(),
        bits(255).named_bits().bits(),
    ];
    assert!(rt; weights == [1, 2, 4, 8, 16, 1 + 2 + 4 + 8 + 16]);
}

#[test]
fn a_load_fills_a_clean_line(rt: HostRuntime) {
    let loaded = [
        LineBits::on_load(false, false).bits(),
        LineBits::on_load(true, false).bits(),
        LineBits::on_load(false, true).bits(),
        LineBits::on_load(true, true).bits(),
    ];
    assert!(rt; loaded == [1, 1 + 4, 1 + 16, 1 + 4 + 16]);
}

#[test]
fn a_store_keeps_the_load_of_an_active_line_alone(rt: HostRuntime) {
    let stored = [
        bits(0).on_store(false).bits(),
        bits(1 + 4).on_store(false).bits(),
        bits(1 + 4 + 8).on_store(false).bits(),
        bits(4).on_store(true).bits(),
        bits(1 + 2 + 4 + 16).on_store(false).bits(),
    ];
    assert!(rt; stored == [1 + 2, 1 + 2 + 4, 1 + 2, 1 + 2 + 16, 1 + 2 + 4]);
}

#[test]
fn a_commit_and_a_squash_touch_active_lines_alone(rt: HostRuntime) {
    let committed = [
        bits(1 + 4).on_commit().bits(),
        bits(1 + 2 + 8).on_commit().bits(),
        bits(0).on_commit().bits(),
    ];
    let squashed = [
        bits(1 + 2 + 16).on_squash().bits(),
        bits(1 + 4 + 8).on_squash().bits(),
    ];
    assert!(rt; committed == [1 + 4 + 8, 1 + 2 + 8, 0] && squashed == [0, 1 + 4 + 8]);
}

#[test]
fn a_line_is_taken_over_while_no_later_store_has_passed_it(rt: HostRuntime) {
    let reusable = [
        bits(1 + 4 + 8).is_reusable(),
        bits(1 + 4).is_reusable(),
        bits(1 + 2 + 8).is_reusable(),
        bits(1 + 8).on_overtaken().is_reusable(),
    ];
    let taken = [
        bits(1 + 8).on_reuse().bits(),
        bits(1 + 8).on_overtaken().bits(),
    ];
    assert!(rt; reusable == [true, false, false, false] && taken == [1 + 4, 1 + 8 + 16]);
}

#[test]
fn a_line_is_asked_by_its_bits(rt: HostRuntime) {
    let asked = [
        bits(1).is_valid(),
        !bits(2 + 4).is_valid(),
        bits(1 + 2).is_active(),
        !bits(1 + 8).is_active(),
        bits(1 + 8).is_committed(),
        !bits(8).is_committed(),
        bits(1 + 2).is_dirty(),
        !bits(1 + 4).is_dirty(),
        bits(1 + 4).is_exposed(),
        !bits(1 + 4 + 8).is_exposed(),
    ];
    assert!(rt; asked == [true; 10]);
}
