//! Each reader and each writer once, with values that are written out.

use ab_form::{
    Bad, array_at, bytes_at, entries_are_formats, numbers_are_formats, put_bytes, put_u8, put_u16,
    put_u32, put_u64, ranged_u8, ranged_u16, ranged_u32, ranged_u64, text_u8, text_u16,
    texts_are_formats, u8_at, u16_at, u32_at, u64_at,
};

#[test]
fn numbers_are_big_endian(rt: HostRuntime) {
    let bytes = [0x01, 0x02, 0x03, 0x04, 0x05, 0x06, 0x07, 0x08, 0x09];
    assert!(rt; u8_at(&bytes) == Ok((0x01, &bytes[1..])));
    assert!(rt; u16_at(&bytes) == Ok((0x0102, &bytes[2..])));
    assert!(rt; u32_at(&bytes) == Ok((0x0102_0304, &bytes[4..])));
    assert!(rt; u64_at(&bytes) == Ok((0x0102_0304_0506_0708, &bytes[8..])));
    assert!(rt; u8_at(&[]) == Err(Bad::Short));
    assert!(rt; u16_at(&bytes[..1]) == Err(Bad::Short));
    assert!(rt; u32_at(&bytes[..3]) == Err(Bad::Short));
    assert!(rt; u64_at(&bytes[..7]) == Err(Bad::Short));
}

/// What was read, without the bytes behind it.
fn value<T: Copy>(read: Result<(T, &[u8]), Bad>) -> Result<T, Bad> {
    match read {
        Ok((n, _)) => Ok(n),
        Err(bad) => Err(bad),
    }
}

#[test]
fn bounds_are_kept(rt: HostRuntime) {
    let bytes = [0, 0, 0, 0, 0, 0, 0, 5];
    assert!(rt; value(ranged_u8(0, 0, Bad::BadCode, &bytes)) == Ok(0));
    assert!(rt; value(ranged_u8(1, 9, Bad::BadCode, &bytes)) == Err(Bad::BadCode));
    assert!(rt; value(ranged_u16(5, 5, Bad::BadField, &bytes[6..])) == Ok(5));
    assert!(rt; value(ranged_u16(0, 4, Bad::BadField, &bytes[6..])) == Err(Bad::BadField));
    assert!(rt; value(ranged_u32(5, 9, Bad::BadField, &bytes[4..])) == Ok(5));
    assert!(rt; value(ranged_u32(6, 9, Bad::BadField, &bytes[4..])) == Err(Bad::BadField));
    assert!(rt; value(ranged_u64(1, 5, Bad::BadLength, &bytes)) == Ok(5));
    assert!(rt; value(ranged_u64(1, 4, Bad::BadLength, &bytes)) == Err(Bad::BadLength));
}

#[test]
fn texts_stand_behind_their_length(rt: HostRuntime) {
    let bytes = [0, 2, 0x6f, 0x6b, 0xff];
    assert!(rt; text_u16(1, 2, &bytes) == Ok((&bytes[2..4], &bytes[4..])));
    assert!(rt; text_u16(3, 9, &bytes) == Err(Bad::BadLength));
    assert!(rt; text_u8(2, 2, &bytes[1..]) == Ok((&bytes[2..4], &bytes[4..])));
    assert!(rt; text_u8(0, 1, &bytes[1..]) == Err(Bad::BadLength));
    assert!(rt; text_u8(0, 2, &bytes[1..3]) == Err(Bad::Short));
    assert!(rt; bytes_at(2, &bytes) == Ok((&bytes[..2], &bytes[2..])));
    assert!(rt; bytes_at(6, &bytes) == Err(Bad::Short));
    assert!(rt; array_at(&[7; 33]) == Ok((&[7; 32], [7].as_slice())));
    assert!(rt; array_at(&[7; 31]) == Err(Bad::Short));
}

#[test]
fn parts_are_added(rt: HostRuntime) {
    let mut out = Vec::new(rt.alloc());
    put_u8(rt.alloc(), &mut out, 0x01).expect(&rt, "memory");
    put_u16(rt.alloc(), &mut out, 0x0203).expect(&rt, "memory");
    put_u32(rt.alloc(), &mut out, 0x0405_0607).expect(&rt, "memory");
    put_u64(rt.alloc(), &mut out, 0x0809_0a0b_0c0d_0e0f).expect(&rt, "memory");
    put_bytes(rt.alloc(), &mut out, b"ok").expect(&rt, "memory");
    let bytes = [
        1, 2, 3, 4, 5, 6, 7, 8, 9, 10, 11, 12, 13, 14, 15, 0x6f, 0x6b,
    ];
    assert!(rt; out.as_slice() == bytes.as_slice());
}

#[test]
fn laws_are_called() {
    entries_are_formats();
    numbers_are_formats();
    texts_are_formats();
}
