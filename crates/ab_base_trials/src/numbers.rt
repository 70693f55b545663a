//! Values from the definitions of the plans, and bytes in network order.

use ab_num::{Cluster, Cur, Kind, Plan, get_u16, get_u32, get_u64, put_u16, put_u32, put_u64};

#[test]
fn numbers_are_big_endian(rt: HostRuntime) {
    let mut buf = [0u8; 16];
    put_u16(&mut buf, 0, 0x0102);
    put_u32(&mut buf, 2, 0x03040506);
    put_u64(&mut buf, 6, 0x0708090a0b0c0d0e);
    assert!(rt; buf == [1, 2, 3, 4, 5, 6, 7, 8, 9, 10, 11, 12, 13, 14, 0, 0]);
    assert!(rt; get_u16(&buf, 1) == Some(0x0203));
    assert!(rt; get_u32(&buf, 13) == None);
    assert!(rt; get_u64(&buf, 8) == Some(0x090a0b0c0d0e0000));
}

#[test]
fn cursor_stays_where_too_few_are_left(rt: HostRuntime) {
    let buf = [
        1u8, 2, 3, 4, 5, 6, 7, 8, 9, 10, 11, 12, 13, 14, 15, 16, 17, 18, 19, 20,
    ];
    let mut cursor = Cur::new(&buf);
    assert!(rt; cursor.u8() == Some(1));
    assert!(rt; cursor.u16() == Some(0x0203));
    assert!(rt; cursor.u32() == Some(0x04050607));
    assert!(rt; cursor.u64() == Some(0x08090a0b0c0d0e0f));
    assert!(rt; cursor.left() == 5);
    assert!(rt; cursor.u64() == None);
    assert!(rt; cursor.left() == 5);
    let bytes = cursor.bytes(3).expect(&rt, "three bytes");
    assert!(rt; bytes == [16, 17, 18].as_slice());
    assert!(rt; cursor.bytes(3).is_none());
    assert!(rt; cursor.u16() == Some(0x1314));
    assert!(rt; cursor.u8() == None);
}

#[test]
fn plans_say_kind_and_limit(rt: HostRuntime) {
    let azyzzyva = Cluster::new(1, 16, Plan::AZyzzyva, 0).expect(&rt, "in bounds");
    assert!(rt; azyzzyva.kind(1) == Kind::ZLight);
    assert!(rt; azyzzyva.kind(2) == Kind::Backup);
    assert!(rt; azyzzyva.replicas() == 4);
    assert!(rt; azyzzyva.limit(2) == 1);
    assert!(rt; azyzzyva.limit(8) == 8);
    assert!(rt; azyzzyva.limit(4294967294) == 16);
    let aliph = Cluster::new(2, 1, Plan::Aliph, 0).expect(&rt, "in bounds");
    assert!(rt; aliph.kind(1) == Kind::Quorum);
    assert!(rt; aliph.kind(2) == Kind::Chain);
    assert!(rt; aliph.kind(3) == Kind::Backup);
    assert!(rt; aliph.limit(6) == 2);
    assert!(rt; Cluster::new(3, 1, Plan::Aliph, 0) == None);
    assert!(rt; Cluster::new(1, 17, Plan::Aliph, 0) == None);
}

#[test]
fn positions_begin_at_the_primary(rt: HostRuntime) {
    let cluster = Cluster::new(1, 1, Plan::Chain, 0).expect(&rt, "in bounds");
    assert!(rt; cluster.primary(1) == 0);
    assert!(rt; cluster.primary(6) == 1);
    assert!(rt; cluster.at_position(6, 1) == 1);
    assert!(rt; cluster.at_position(6, 4) == 0);
    assert!(rt; cluster.position_of(6, 0) == 4);
    assert!(rt; cluster.position_of(6, 3) == 3);
    assert!(rt; cluster.at_position(4294967295, 4) == 1);
}
