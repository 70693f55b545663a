//! Lists that forget their first entries, beside a history of the same requests.

ghost use Rattle.std.specs.Prelude.{◌≡◌, ◌<◌};

use ab_hist::{History, PushFault, Request};
use ab_trim::{Trimmed, agreed_list};
use arrayvec::ArrayVec;
use std::alloc::Global;
use std::process::Abort;

fn request(client: u16, stamp: u64) -> Request
    ensures { result.client ≡ client }
{
    let command = ArrayVec::new();
    Request {
        client,
        stamp,
        command,
    }
}

/// The request at place `k` of the lists here, of one of three clients.
fn nth(k: u64) -> Request
    ensures { result.client < 16 }
{
    request((k % 3) as u16, k)
}

/// Adds the requests at the places behind `from`, as far as `to`.
fn grow(rt: &impl Abort, alloc: Global, list: &mut Trimmed, from: u64, to: u64) {
    for k in from..to {
        assert!(rt; list.push(alloc, nth(k.wrapping_add(1))) == Ok(()));
    }
}

/// A list of so many requests.
fn list_of(rt: &impl Abort, alloc: Global, n: u64) -> Trimmed {
    let mut list = Trimmed::new(alloc);
    grow(rt, alloc, &mut list, 0, n);
    list
}

/// A history of so many requests.
fn history_of(rt: &impl Abort, alloc: Global, n: u64) -> History {
    let mut history = History::new(alloc);
    for k in 0..n {
        assert!(rt; history.push(alloc, nth(k.wrapping_add(1))) == Ok(()));
    }
    history
}

/// What a list shows at place `n` is what the history has there.
fn expect_same_at(rt: &impl Abort, list: &Trimmed, history: &History, n: usize) {
    assert!(rt; list.start() <= n && n <= list.len() && n <= history.len());
    assert!(rt; list.digest_at(n) == history.digest_at(n));
    assert!(rt; list.holds(n, &history.digest_at(n)) && !list.holds(n, &[7; 32]));
    if n > list.start() && n >= 1 {
        assert!(rt; list.at(n) == history.at(n));
        assert!(rt; list.place_of(list.at(n)) == Some(n));
    }
}

/// The list shows what the history has, from place `from` on.
fn expect_same(rt: &impl Abort, list: &Trimmed, history: &History, from: usize) {
    assert!(rt; list.start() == from && list.len() == history.len());
    for n in from..history.len() {
        expect_same_at(rt, list, history, n);
    }
    expect_same_at(rt, list, history, history.len());
}

#[test]
fn forgotten_lists_show_what_histories_do(rt: HostRuntime) {
    let alloc = rt.alloc();
    let history = history_of(&rt, alloc, 300);
    let mut list = list_of(&rt, alloc, 300);
    expect_same(&rt, &list, &history, 0);
    for n in [1, 63, 64, 65, 100, 128, 130, 256, 299] {
        assert!(rt; list.start() <= n && n <= list.len());
        list.forget(n);
        expect_same(&rt, &list, &history, n);
    }
    assert!(rt; list.start() <= 300 && list.len() == 300 && history.len() == 300);
    list.forget(300);
    assert!(rt; list.digest() == history.digest_at(300));
    expect_same(&rt, &list, &history, 300);
}

/// Of what is forgotten the last request of each client is known, and no other.
#[test]
fn last_requests_are_known(rt: HostRuntime) {
    let alloc = rt.alloc();
    let mut list = list_of(&rt, alloc, 200);
    assert!(rt; list.start() <= 100 && 100 <= list.len());
    list.forget(100);
    for n in [98, 99, 100, 101, 200] {
        assert!(rt; list.place_of(&nth(n)) == Some(n as usize));
        assert!(rt; !list.can_push(&nth(n)));
    }
    for n in [1, 3, 60, 97] {
        assert!(rt; list.place_of(&nth(n)) == None);
        assert!(rt; !list.can_push(&nth(n)));
        assert!(rt; list.push(alloc, nth(n)) == Err(PushFault::Repeat));
    }
    assert!(rt; list.place_of(&nth(201)) == None && list.can_push(&nth(201)));
    assert!(rt; list.place_of(&request(15, 1)) == None && list.can_push(&request(15, 1)));
    assert!(rt; list.len() == 200);
}

/// A list that is cut goes on from there, whatever was behind.
#[test]
fn lists_are_cut_and_go_on(rt: HostRuntime) {
    let alloc = rt.alloc();
    for (start, end) in [
        (0, 0),
        (0, 64),
        (0, 100),
        (70, 70),
        (70, 90),
        (70, 128),
        (70, 140),
        (128, 140),
    ] {
        let mut list = list_of(&rt, alloc, 200);
        let mut other = list.copy(alloc).expect(&rt, "memory");
        assert!(rt; list.start() <= start && start <= list.len());
        list.forget(start);
        assert!(rt; list.start() <= end && end <= list.len());
        list.cut(end);
        let history = history_of(&rt, alloc, end as u64);
        expect_same(&rt, &list, &history, start);
        grow(&rt, alloc, &mut list, end as u64, 220);
        let history = history_of(&rt, alloc, 220);
        expect_same(&rt, &list, &history, start);
        assert!(rt; other.len() == 200 && other.start() == 0);
        grow(&rt, alloc, &mut other, 200, 220);
        expect_same(&rt, &other, &history, 0);
    }
}

#[test]
fn room_is_behind_what_is_forgotten(rt: HostRuntime) {
    let alloc = rt.alloc();
    let mut list = list_of(&rt, alloc, 1024);
    assert!(rt; list.push(alloc, nth(1025)) == Err(PushFault::Full));
    assert!(rt; !list.can_push(&nth(1025)));
    assert!(rt; list.start() <= 500 && 500 <= list.len());
    list.forget(500);
    grow(&rt, alloc, &mut list, 1024, 1500);
    assert!(rt; list.start() <= 1000 && 1000 <= list.len());
    list.forget(1000);
    assert!(rt; list.start() == 1000 && list.len() == 1500);
    grow(&rt, alloc, &mut list, 1500, 2024);
    assert!(rt; list.push(alloc, nth(2025)) == Err(PushFault::Full));
    assert!(rt; list.push(alloc, nth(2024)) == Err(PushFault::Full));
    assert!(rt; list.len() == 2024);
}

#[test]
fn no_list_has_more_entries(rt: HostRuntime) {
    let alloc = rt.alloc();
    let mut list = Trimmed::begin(alloc, 65_534, [5; 32]);
    assert!(rt; list.start() == 65_534 && list.len() == 65_534 && list.digest() == [5; 32]);
    assert!(rt; list.push(alloc, request(3, 9)) == Ok(()));
    assert!(rt; list.len() == 65_535 && list.place_of(&request(3, 9)) == Some(65_535));
    assert!(rt; list.push(alloc, request(4, 9)) == Err(PushFault::Full));
    let mut full = Trimmed::begin(alloc, 65_535, [5; 32]);
    assert!(rt; !full.can_push(&request(3, 9)));
    assert!(rt; full.push(alloc, request(3, 9)) == Err(PushFault::Full));
}

#[test]
fn prefixes_have_one_beginning(rt: HostRuntime) {
    let alloc = rt.alloc();
    let long = list_of(&rt, alloc, 200);
    let mut short = long.copy(alloc).expect(&rt, "memory");
    assert!(rt; short.is_equal(&long) && short.is_prefix_of(&long));
    assert!(rt; short.start() <= 130 && 130 <= short.len());
    short.cut(130);
    assert!(rt; short.is_prefix_of(&long) && !long.is_prefix_of(&short) && !short.is_equal(&long));
    let mut other = long.copy(alloc).expect(&rt, "memory");
    assert!(rt; other.start() <= 70 && 70 <= other.len());
    other.forget(70);
    assert!(rt; !short.is_prefix_of(&other) && !long.is_equal(&other));
    assert!(rt; short.start() <= 70 && 70 <= short.len());
    short.forget(70);
    assert!(rt; short.is_prefix_of(&other) && !other.is_prefix_of(&short));
    // The same entries in other chunks.
    let mut read = Trimmed::begin(alloc, 70, other.digest());
    grow(&rt, alloc, &mut read, 70, 200);
    assert!(rt; read.is_equal(&other) && other.is_equal(&read) && short.is_prefix_of(&read));
    assert!(rt; read.push(alloc, request(9, 1)) == Ok(()));
    assert!(rt; other.push(alloc, request(9, 2)) == Ok(()));
    assert!(rt; !read.is_equal(&other) && !read.is_prefix_of(&other));
}

/// The list that two replicas agree on begins where the one that forgot more does, and knows what its own does.
#[test]
fn offered_lists_are_grounded(rt: HostRuntime) {
    let alloc = rt.alloc();
    let history = history_of(&rt, alloc, 250);
    let whole = list_of(&rt, alloc, 200);
    assert!(rt; history.len() == 250);
    let mut offered = Trimmed::begin(alloc, 100, history.digest_at(100));
    grow(&rt, alloc, &mut offered, 100, 250);
    assert!(rt; offered.place_of(&nth(99)) == None);
    // The own list shows where the offered one begins.
    let told = whole
        .grounded(alloc, &offered)
        .expect(&rt, "memory")
        .expect(&rt, "a list");
    expect_same(&rt, &told, &history, 100);
    assert!(rt; told.place_of(&nth(99)) == Some(99) && told.place_of(&nth(97)) == None);
    // The offered list shows where the own one begins.
    let mut later = list_of(&rt, alloc, 200);
    assert!(rt; later.start() <= 150 && 150 <= later.len());
    later.forget(150);
    let told = later
        .grounded(alloc, &offered)
        .expect(&rt, "memory")
        .expect(&rt, "a list");
    expect_same(&rt, &told, &history, 150);
    assert!(rt; told.place_of(&nth(149)) == Some(149) && told.place_of(&nth(147)) == None);
    // Neither shows where the other begins.
    let strange = Trimmed::begin(alloc, 100, [7; 32]);
    assert!(rt;
        whole
            .grounded(alloc, &strange)
            .expect(&rt, "memory")
            .is_none()
    );
    let short = list_of(&rt, alloc, 50);
    assert!(rt;
        short
            .grounded(alloc, &offered)
            .expect(&rt, "memory")
            .is_none()
    );
}

/// A list that knows nothing of the first entries can be asked for them, and forgets and gets others.
#[test]
fn unknown_beginnings_are_kept_by_digest(rt: HostRuntime) {
    let alloc = rt.alloc();
    let history = history_of(&rt, alloc, 250);
    assert!(rt; history.len() == 250);
    let mut read = Trimmed::begin(alloc, 10, history.digest_at(10));
    grow(&rt, alloc, &mut read, 10, 250);
    expect_same(&rt, &read, &history, 10);
    assert!(rt; read.start() <= 77 && 77 <= read.len());
    read.forget(77);
    expect_same(&rt, &read, &history, 77);
}

/// A list of the first `n` requests here and then one of another client, that has forgotten `start`.
fn branch_of(rt: &impl Abort, alloc: Global, start: usize, n: u64, stamp: u64) -> Trimmed {
    let mut list = list_of(rt, alloc, n);
    assert!(rt; list.push(alloc, request(9, stamp)) == Ok(()));
    assert!(rt; list.start() <= start && start <= list.len());
    list.forget(start);
    list
}

/// The list on which two of these three agree.
fn agreed_of(
    rt: &impl Abort,
    alloc: Global,
    a: Trimmed,
    b: Trimmed,
    c: Trimmed,
) -> Option<Trimmed> {
    let mut lists = Vec::new(alloc);
    for list in [a, b, c] {
        lists.push(list).expect(rt, "memory");
    }
    agreed_list(alloc, &lists, 2).expect(rt, "memory")
}

#[test]
fn two_lists_agree_to_their_last_point(rt: HostRuntime) {
    let alloc = rt.alloc();
    for (a, b, c, n) in [(1, 2, 3, 5), (1, 1, 2, 6), (2, 1, 1, 6), (1, 2, 1, 6)] {
        let agreed = agreed_of(
            &rt,
            alloc,
            branch_of(&rt, alloc, 0, 5, a),
            branch_of(&rt, alloc, 0, 5, b),
            branch_of(&rt, alloc, 0, 5, c),
        )
        .expect(&rt, "a list");
        assert!(rt; agreed.start() == 0 && agreed.len() == n);
        assert!(rt; agreed.place_of(&nth(5)) == Some(5));
        assert!(rt; (agreed.place_of(&request(9, 1)) == Some(6)) == (n == 6));
        assert!(rt; agreed.place_of(&request(9, 2)) == None);
    }
    let agreed = agreed_of(
        &rt,
        alloc,
        list_of(&rt, alloc, 4),
        list_of(&rt, alloc, 0),
        list_of(&rt, alloc, 9),
    );
    assert!(rt; agreed.expect(&rt, "a list").len() == 4);
}

/// Of the holders the one that has forgotten the least is taken, without what it knows of what it has forgotten.
#[test]
fn what_is_agreed_on_forgets_least(rt: HostRuntime) {
    let alloc = rt.alloc();
    let agreed = agreed_of(
        &rt,
        alloc,
        branch_of(&rt, alloc, 20, 90, 1),
        branch_of(&rt, alloc, 70, 90, 2),
        branch_of(&rt, alloc, 5, 60, 3),
    )
    .expect(&rt, "a list");
    expect_same(&rt, &agreed, &history_of(&rt, alloc, 90), 20);
    assert!(rt; agreed.place_of(&nth(21)) == Some(21) && agreed.place_of(&nth(20)) == None);
    // The point behind which two lists differ is forgotten by one of them.
    let none = agreed_of(
        &rt,
        alloc,
        branch_of(&rt, alloc, 91, 90, 1),
        branch_of(&rt, alloc, 91, 90, 2),
        branch_of(&rt, alloc, 91, 90, 3),
    );
    assert!(rt; none.is_none());
}
