//! Telling inputs of faults, byte orders, sources, windows and fixed records.
ghost use Rattle.std.proofs.Common.{rules};

use endian::{BigEndian, Endian, Endianness, LittleEndian};
use faults::{Cause, Fault, FaultKind};
use sources::pod::{
    Pod, PodBytes, field, from_bytes, read_at, read_slice_at, slice_from_all_bytes,
    slice_from_bytes,
};
use sources::read_ref::{ReadRef, Window};
use std::test::Fail;

// A record of two bytes.
#[derive(Clone, Copy)]
struct Pair([u8; 2]);

impl Pod for Pair {
    ghost width = { 2 };

    ghost stored = { λ v. v.0 };

    ghost some = { Prim.search rules };

    ghost one = { Prim.search rules };

    fn size_of() -> usize {
        2
    }

    fn cast(bytes: &[u8]) -> Option<Pair> {
        bytes.first_chunk::<2>().map(|stored| Pair(*stored))
    }
}

impl PodBytes for Pair {
    fn bytes_of(&self) -> &[u8] {
        &self.0
    }
}

// What a source answers: the part's length and the sum of its bytes, or none.
fn asked<'a, R: ReadRef<'a>>(source: R, offset: u64, size: u64) -> Option<(usize, u64)> {
    let part = source.read_bytes_at(offset, size).ok()?;
    let sum = part
        .iter()
        .fold(0u64, |sum, b| sum.wrapping_add(u64::from(*b)));
    Some((part.len(), sum))
}

#[test]
fn a_slice_answers_the_parts_that_lie_in_it(rt: HostRuntime) {
    let bytes: &[u8] = &[1, 2, 4, 8, 16];
    assert_eq!(rt; <&'_ [u8] as ReadRef<'_>>::len(bytes), 5);
    let cases = [
        (0, 5, Some((5, 31))),
        (0, 6, None),
        (1, 3, Some((3, 14))),
        (4, 1, Some((1, 16))),
        (5, 1, None),
        (5, 0, Some((0, 0))),
        (u64::MAX, 0, Some((0, 0))),
        (u64::MAX, 2, None),
        (2, u64::MAX, None),
    ];
    for (offset, size, answer) in cases {
        assert_eq!(rt; asked(bytes, offset, size), answer);
    }
}

#[test]
fn a_window_has_to_lie_in_its_source(rt: HostRuntime) {
    let bytes: &[u8] = &[1, 2, 4, 8, 16];
    let cases = [
        (0, 5, None),
        (5, 0, None),
        (6, 0, Some(8)),
        (1, 5, Some(8)),
        (u64::MAX, 2, Some(8)),
        (2, u64::MAX, Some(8)),
    ];
    for (start, size, refusal) in cases {
        let fault = Window::new(bytes, start, size).err();
        assert_eq!(rt; fault.map(|fault| fault.kind.number()), refusal);
    }
}

#[test]
fn a_window_is_a_source_of_its_own(rt: HostRuntime) -> Result<(), Fail> {
    let bytes: &[u8] = &[1, 2, 4, 8, 16];
    let outer = Window::new(bytes, 1, 3)?;
    assert_eq!(rt; outer.len(), 3);
    assert_eq!(rt; asked(outer, 0, 3), Some((3, 14)));
    assert_eq!(rt; asked(outer, 2, 1), Some((1, 8)));
    assert_eq!(rt; asked(outer, 2, 2), None);
    assert_eq!(rt; asked(outer, u64::MAX, 0), Some((0, 0)));
    assert_eq!(rt; asked(outer, u64::MAX, 2), None);
    let inner = Window::new(outer, 1, 2)?;
    assert_eq!(rt; asked(inner, 0, 2), Some((2, 12)));
    assert_eq!(rt; asked(inner, 1, 1), Some((1, 8)));
    assert_eq!(rt; asked(inner, 1, 2), None);
    assert!(rt; Window::new(outer, 1, 3).is_err());
    Ok(())
}

fn both(record: Option<Pair>) -> Option<(u8, u8)> {
    record.map(|Pair([first, second])| (first, second))
}

#[test]
fn records_stand_one_after_another(rt: HostRuntime) -> Result<(), Fail> {
    let bytes: &[u8] = &[1, 2, 3, 4, 5];
    let (first, rest) = from_bytes::<Pair>(bytes)?;
    assert_eq!(rt; both(Some(first)), Some((1, 2)));
    assert!(rt; matches!(first.bytes_of(), [1, 2]));
    assert_eq!(rt; field::<2>(bytes, 3), [4, 5]);
    assert_eq!(rt; field::<2>(bytes, 4), [0, 0]);
    assert_eq!(rt; field::<2>(bytes, usize::MAX), [0, 0]);
    assert_eq!(rt; rest.len(), 3);
    assert!(rt; from_bytes::<Pair>(&[9]).is_err());
    let (two, rest) = slice_from_bytes::<Pair>(bytes, 2)?;
    assert_eq!(rt; two.len(), 2);
    assert_eq!(rt; both(two.get(1)), Some((3, 4)));
    assert_eq!(rt; both(two.get(2)), None);
    assert_eq!(rt; both(two.get(usize::MAX)), None);
    assert_eq!(rt; rest.len(), 1);
    assert!(rt; slice_from_bytes::<Pair>(bytes, 3).is_err());
    assert!(rt; slice_from_bytes::<Pair>(bytes, usize::MAX).is_err());
    assert!(rt; slice_from_all_bytes::<Pair>(bytes).is_err());
    let none = slice_from_all_bytes::<Pair>(&[])?;
    assert!(rt; none.is_empty());
    assert!(rt; slice_from_all_bytes::<Pair>(&bytes[1..]).is_ok());
    Ok(())
}

#[test]
fn records_are_read_through_a_source(rt: HostRuntime) -> Result<(), Fail> {
    let bytes: &[u8] = &[1, 2, 3, 4, 5];
    let window = Window::new(bytes, 1, 4)?;
    assert_eq!(rt; both(read_at(window, 2).ok()), Some((4, 5)));
    assert_eq!(rt; both(read_at(window, 3).ok()), None);
    assert_eq!(rt; both(read_at(window, u64::MAX).ok()), None);
    let records = read_slice_at::<Pair, Window<&[u8]>>(window, 0, 2)?;
    assert_eq!(rt; both(records.get(1)), Some((4, 5)));
    assert!(rt; read_slice_at::<Pair, Window<&[u8]>>(window, 1, 2).is_err());
    assert!(rt; read_slice_at::<Pair, Window<&[u8]>>(window, 0, u64::MAX).is_err());
    assert!(rt; read_slice_at::<Pair, Window<&[u8]>>(window, u64::MAX, 0).is_ok());
    Ok(())
}

#[test]
fn numbers_are_read_in_an_order(rt: HostRuntime) {
    let n = [1, 2, 3, 0xfe];
    assert_eq!(rt; LittleEndian.read_u32(n), 0xfe03_0201);
    assert_eq!(rt; BigEndian.read_u32(n), 0x0102_03fe);
    assert_eq!(rt; LittleEndian.read_i32(n), -33357311);
    assert_eq!(rt; Endianness::Big.read_i32(n), 0x0102_03fe);
    assert_eq!(rt; Endianness::Little.read_u16([0, 1]), 256);
    assert_eq!(rt; BigEndian.read_i16([0xff, 0xfe]), -2);
    let m = [0x80, 0, 0, 0, 0, 0, 0, 1];
    assert_eq!(rt; BigEndian.read_u64(m), 0x8000_0000_0000_0001);
    assert_eq!(rt; BigEndian.read_i64(m), -0x7fff_ffff_ffff_ffff);
    assert_eq!(rt; LittleEndian.read_u64(m), 0x0100_0000_0000_0080);
    assert!(rt; Endianness::Big.is_big_endian() && LittleEndian.is_little_endian());
}

#[test]
fn a_fault_tells_its_number_what_and_where(rt: HostRuntime) -> Result<(), Fail> {
    let direct = Fault::direct(FaultKind::PayloadOutside);
    let symbol = Fault {
        kind: FaultKind::CrelSymbolUnreadable,
        cause: Some(Cause::Short),
        section: 7,
        ordinals: (2, 0),
    };
    let vendor = Fault {
        kind: FaultKind::VendorUnended,
        cause: None,
        section: 8,
        ordinals: (2, 0),
    };
    let index = Fault {
        kind: FaultKind::IndexTooWide,
        cause: Some(Cause::Wide),
        section: 9,
        ordinals: (1, 3),
    };
    let cases = [
        (direct, "fault 12: the payload lies outside the source"),
        (
            Fault {
                section: 4,
                ..direct
            },
            "fault 12: the payload lies outside the source, in section 4",
        ),
        (
            symbol,
            "fault 17: a CREL record's symbol is unreadable (a number ran out of bytes), in section 7, record 2",
        ),
        (
            vendor,
            "fault 23: a subsection's vendor name has no end, in section 8, subsection 2",
        ),
        (
            index,
            "fault 28: an index of a block is wider than 32 bits (a number is too wide), in section 9, subsection 1, block 3",
        ),
    ];
    for (fault, text) in cases {
        let told = format!(in rt.alloc(); "{fault}")?;
        assert!(rt; told.as_str() == text);
    }
    Ok(())
}
