//! Pieces in any order.

use ab_num::Party;
use ab_piece::{
    DropCause, Joiner, Pieces, Taken, cut, cut_messages_come_whole, cut_pieces_are_read,
    open_messages_are_bounded, pieces_are_read, whole_messages_came,
};
use std::alloc::Global;

/// The bytes of a piece, where there is one.
fn piece(pieces: &Pieces, index: usize) -> &[u8] {
    if index < pieces.len() {
        pieces.get(index)
    } else {
        &[]
    }
}

#[test]
fn one_piece_is_its_message(rt: HostRuntime) {
    let alloc = rt.alloc();
    let pieces = cut(alloc, Party::Replica(1), 5, &[0x0a, 0x0b, 0x0c]).expect(&rt, "memory");
    assert!(rt; pieces.len() == 1);
    let want = [
        1u8, 0, 0, 1, 0, 0, 0, 0, 0, 0, 0, 5, 0, 0, 0, 1, 0x0a, 0x0b, 0x0c,
    ];
    assert!(rt; piece(&pieces, 0) == want.as_slice());
    let mut joiner = Joiner::new(alloc);
    assert!(rt;
        joiner.take(alloc, &want[..15]).expect(&rt, "memory") == Taken::Dropped(DropCause::Header)
    );
    let whole = vec![in alloc; 0x0au8, 0x0b, 0x0c].expect(&rt, "memory");
    assert!(rt; joiner.take(alloc, piece(&pieces, 0)).expect(&rt, "memory") == Taken::Whole(whole));
}

/// A message of two pieces, by client 3.
fn two_pieces(alloc: Global, number: u64, last: u8) -> Option<(Vec<u8>, Pieces)> {
    let mut message = Vec::from_elem(alloc, 7u8, 8192).ok()?;
    message.push(last).ok()?;
    let pieces = cut(alloc, Party::Client(3), number, message.as_slice()).ok()?;
    Some((message, pieces))
}

#[test]
fn the_last_piece_has_the_rest(rt: HostRuntime) {
    let alloc = rt.alloc();
    let (_, pieces) = two_pieces(alloc, 258, 9).expect(&rt, "memory");
    assert!(rt; pieces.len() == 2);
    let full = piece(&pieces, 0);
    let front = [1u8, 1, 0, 3, 0, 0, 0, 0, 0, 0, 1, 2, 0, 0, 0, 2];
    assert!(rt; full.starts_with(&front));
    assert!(rt; full.len() == 8208);
    let rest = [1u8, 1, 0, 3, 0, 0, 0, 0, 0, 0, 1, 2, 0, 1, 0, 2, 9];
    assert!(rt; piece(&pieces, 1) == rest.as_slice());
}

#[test]
fn pieces_come_in_any_order(rt: HostRuntime) {
    let alloc = rt.alloc();
    let (first, a) = two_pieces(alloc, 1, 1).expect(&rt, "memory");
    let (second, b) = two_pieces(alloc, 2, 2).expect(&rt, "memory");
    let mut joiner = Joiner::new(alloc);
    assert!(rt; joiner.take(alloc, piece(&b, 1)).expect(&rt, "memory") == Taken::More);
    assert!(rt; joiner.take(alloc, piece(&a, 1)).expect(&rt, "memory") == Taken::More);
    assert!(rt;
        joiner.take(alloc, piece(&a, 1)).expect(&rt, "memory") == Taken::Dropped(DropCause::Again)
    );
    let of_three = [1u8, 1, 0, 3, 0, 0, 0, 0, 0, 0, 0, 1, 0, 2, 0, 3, 9];
    assert!(rt;
        joiner.take(alloc, &of_three).expect(&rt, "memory") == Taken::Dropped(DropCause::Differs)
    );
    assert!(rt; joiner.take(alloc, piece(&b, 0)).expect(&rt, "memory") == Taken::Whole(second));
    assert!(rt; joiner.take(alloc, piece(&a, 0)).expect(&rt, "memory") == Taken::Whole(first));
    assert!(rt; joiner.take(alloc, piece(&a, 0)).expect(&rt, "memory") == Taken::More);
}

#[test]
fn a_ninth_removes_the_first(rt: HostRuntime) {
    let alloc = rt.alloc();
    let mut joiner = Joiner::new(alloc);
    for number in 1..10u64 {
        let (_, pieces) = two_pieces(alloc, number, 1).expect(&rt, "memory");
        assert!(rt; joiner.take(alloc, piece(&pieces, 0)).expect(&rt, "memory") == Taken::More);
    }
    let (second, pieces) = two_pieces(alloc, 2, 1).expect(&rt, "memory");
    assert!(rt;
        joiner.take(alloc, piece(&pieces, 1)).expect(&rt, "memory") == Taken::Whole(second)
    );
    let (_, pieces) = two_pieces(alloc, 1, 1).expect(&rt, "memory");
    assert!(rt; joiner.take(alloc, piece(&pieces, 1)).expect(&rt, "memory") == Taken::More);
}

#[test]
fn laws_are_called() {
    pieces_are_read();
    cut_pieces_are_read();
    whole_messages_came();
    cut_messages_come_whole();
    open_messages_are_bounded();
}
