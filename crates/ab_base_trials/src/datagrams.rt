//! Datagrams to oneself, and two readings.

use ab_io::{Clock, Got, LONGEST_DATAGRAM, Link, Refused};
use ab_net::{StdClock, UdpLink};
use std::fs;
use std::net::{Ipv4Addr, SocketAddrV4, UdpSocket};

#[test]
fn a_datagram_comes_to_oneself(rt: HostRuntime) {
    let mut link = UdpLink::new(rt.clone().expect(&rt, "memory"));
    let mut buf = Vec::from_elem(rt.alloc(), 0u8, LONGEST_DATAGRAM).expect(&rt, "memory");
    assert!(rt; link.recv(&mut buf, 1) == Got::Failed);
    assert!(rt; link.send(47011, b"hello") == Err(Refused::Failed));
    // Another test on this machine may have the first of them.
    let mut port = 0;
    for free in 47011..47111u16 {
        if link.open(free).is_ok() {
            port = free;
            break;
        }
    }
    assert!(rt; link.recv(&mut buf, 1) == Got::Quiet);
    assert!(rt; link.send(port, b"hello") == Ok(()));
    assert!(rt; link.recv(&mut buf, 1000) == Got::Bytes(5));
    assert!(rt; buf.starts_with(b"hello"));
}

/// The link listens at 127.0.0.1 alone, so what is sent to another address of the same machine isn't for it.
#[test]
fn a_datagram_to_another_address_is_not_taken(rt: HostRuntime) {
    let mut link = UdpLink::new(rt.clone().expect(&rt, "memory"));
    let mut port = 0;
    for free in 47111..47211u16 {
        if link.open(free).is_ok() {
            port = free;
            break;
        }
    }
    let here = Ipv4Addr::LOCALHOST;
    let elsewhere = Ipv4Addr::new(127, 0, 0, 2);
    let socket = UdpSocket::bind(&rt, SocketAddrV4::new(here, 0)).expect(&rt, "a socket");
    let mut buf = Vec::from_elem(rt.alloc(), 0u8, LONGEST_DATAGRAM).expect(&rt, "memory");
    let sent = socket.send_to(b"elsewhere", SocketAddrV4::new(elsewhere, port));
    assert!(rt; sent.is_ok());
    assert!(rt; link.recv(&mut buf, 200) == Got::Quiet);
    let sent = socket.send_to(b"here", SocketAddrV4::new(here, port));
    assert!(rt; sent.is_ok());
    assert!(rt; link.recv(&mut buf, 1000) == Got::Bytes(4));
    assert!(rt; buf.starts_with(b"here"));
}

/// How many of a hundred pieces have to wait in a link until they are taken: all if the system lets a socket have 2 MiB, which is
/// twice the number it tells. Otherwise 12, which any socket takes on a fresh machine.
fn waiting(rt: &HostRuntime) -> u32 {
    let Ok(told) = fs::read_to_string(rt, "/proc/sys/net/core/rmem_max") else {
        return 12;
    };
    match told.trim().parse::<u64>() {
        Ok(bytes) if 1_048_576 <= bytes => 100,
        _ => 12,
    }
}

#[test]
fn a_burst_waits_until_it_is_taken(rt: HostRuntime) {
    let mut link = UdpLink::new(rt.clone().expect(&rt, "memory"));
    let mut port = 0;
    for free in 47211..47311u16 {
        if link.open(free).is_ok() {
            port = free;
            break;
        }
    }
    let piece = Vec::from_elem(rt.alloc(), 7u8, LONGEST_DATAGRAM).expect(&rt, "memory");
    for _ in 0..100 {
        assert!(rt; link.send(port, &piece) == Ok(()));
    }
    let mut buf = Vec::from_elem(rt.alloc(), 0u8, LONGEST_DATAGRAM).expect(&rt, "memory");
    let mut came = 0u32;
    for _ in 0..100 {
        if link.recv(&mut buf, 1) == Got::Bytes(LONGEST_DATAGRAM) {
            came = came.saturating_add(1);
        }
    }
    assert!(rt; waiting(&rt) <= came);
}

#[test]
fn a_clock_begins_with_zero(rt: HostRuntime) {
    let mut clock = StdClock::new(rt.clone().expect(&rt, "memory"));
    let first = clock.now();
    let second = clock.now();
    assert!(rt; first < 60_000);
    assert!(rt; first <= second);
}
