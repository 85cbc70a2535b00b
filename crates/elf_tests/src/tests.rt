//! Telling inputs of classes, opening, headers, payloads and the inventory.
use class32::{Class32, Rel32, Rela32, SectionHeader32};
use class64::{Class64, Rel64, Rela64, SectionHeader64};
use classes::{Class, Header, Relocation, Sword, Word, symbol};
use elf::file::{ElfFile, HeaderTable};
use elf::section::Sections;
use endian::{BigEndian, Endian, Endianness, LittleEndian};
use faults::{Fault, FaultKind};
use inventory::{ClassName, State, Summary, take};
use sources::pod::Pod;
use sources::read_ref::{ReadRef, Window};
use std::alloc::{AllocError, Global};
use std::array;
use std::test::Fail;

// Bytes that tell their own place.
fn places() -> [u8; 64] {
    array::from_fn(|place| place as u8)
}

#[test]
fn each_field_of_a_header_has_its_place(rt: HostRuntime) -> Result<(), Fail> {
    let narrow = <SectionHeader32 as Pod>::cast(&places()).ok_or("too few bytes")?;
    let little = Header {
        sh_type: 0x0706_0504,
        sh_offset: 0x1312_1110,
        sh_size: 0x1716_1514,
        sh_link: 0x1b1a_1918,
        sh_info: 0x1f1e_1d1c,
    };
    assert_eq!(rt; Header::of(&narrow, LittleEndian), little);
    let big = Header {
        sh_type: 0x0405_0607,
        sh_offset: 0x1011_1213,
        sh_size: 0x1415_1617,
        sh_link: 0x1819_1a1b,
        sh_info: 0x1c1d_1e1f,
    };
    assert_eq!(rt; Header::of(&narrow, Endianness::Big), big);
    let wide = <SectionHeader64 as Pod>::cast(&places()).ok_or("too few bytes")?;
    let little = Header {
        sh_type: 0x0706_0504,
        sh_offset: 0x1f1e_1d1c_1b1a_1918,
        sh_size: 0x2726_2524_2322_2120,
        sh_link: 0x2b2a_2928,
        sh_info: 0x2f2e_2d2c,
    };
    assert_eq!(rt; Header::of(&wide, Endianness::Little), little);
    let big = Header {
        sh_type: 0x0405_0607,
        sh_offset: 0x1819_1a1b_1c1d_1e1f,
        sh_size: 0x2021_2223_2425_2627,
        sh_link: 0x2829_2a2b,
        sh_info: 0x2c2d_2e2f,
    };
    assert_eq!(rt; Header::of(&wide, BigEndian), big);
    assert_eq!(rt; big.link(), 0x2829_2a2b);
    assert_eq!(rt; big.info_link(), 0x2c2d_2e2f);
    Ok(())
}

#[test]
fn records_have_the_sizes_of_their_class(rt: HostRuntime) {
    assert_eq!(rt; ClassName::Class32.header_size(), 40);
    assert_eq!(rt; <Class32 as Class>::rel_size(), 8);
    assert_eq!(rt; <Class32 as Class>::rela_size(), 12);
    assert_eq!(rt; ClassName::Class64.header_size(), 64);
    assert_eq!(rt; <Class64 as Class>::rel_size(), 16);
    assert_eq!(rt; <Class64 as Class>::rela_size(), 24);
}

// What a relocation record tells: offset, symbol, type, addend.
fn told<W: Word, S: Sword, T: Relocation<W, S>, E: Endian>(
    record: &T,
    endian: E,
) -> (u64, u32, u32, i64) {
    (
        record.r_offset(endian).to_u64(),
        record.r_sym(endian),
        record.r_type(endian),
        record.r_addend(endian).to_i64(),
    )
}

#[test]
fn each_field_of_a_relocation_has_its_place(rt: HostRuntime) -> Result<(), Fail> {
    let rel = <Rel32 as Pod>::cast(&[0x10, 0, 0, 0, 2, 5, 0, 0]).ok_or("too few bytes")?;
    assert_eq!(rt; told(&rel, LittleEndian), (16, 5, 2, 0));
    assert_eq!(rt; told(&rel, BigEndian), (268435456, 132352, 0, 0));
    let rela = <Rela32 as Pod>::cast(&places()).ok_or("too few bytes")?;
    assert_eq!(rt;
        told(&rela, LittleEndian),
        (0x0302_0100, 0x0007_0605, 4, 0x0b0a_0908)
    );
    assert_eq!(rt;
        told(&rela, BigEndian),
        (0x0001_0203, 0x0004_0506, 7, 0x0809_0a0b)
    );
    let rel = <Rel64 as Pod>::cast(&places()).ok_or("too few bytes")?;
    assert_eq!(rt;
        told(&rel, LittleEndian),
        (0x0706_0504_0302_0100, 0x0f0e_0d0c, 0x0b0a_0908, 0)
    );
    assert_eq!(rt;
        told(&rel, BigEndian),
        (0x0001_0203_0405_0607, 0x0809_0a0b, 0x0c0d_0e0f, 0)
    );
    assert_eq!(rt; symbol(&rel, BigEndian), Some(0x0809_0a0b));
    let rela = <Rela64 as Pod>::cast(&places()).ok_or("too few bytes")?;
    assert_eq!(rt;
        told(&rela, BigEndian),
        (
            0x0001_0203_0405_0607,
            0x0809_0a0b,
            0x0c0d_0e0f,
            0x1011_1213_1415_1617,
        )
    );
    assert!(rt; <Rela64 as Pod>::cast(&places()[0..23]).is_none());
    Ok(())
}

#[test]
fn addends_are_signed_and_symbol_0_is_none(rt: HostRuntime) -> Result<(), Fail> {
    let stored = [
        1, 0, 0, 0, 0, 0, 0, 0, 9, 0, 0, 0, 0, 0, 0, 0, 0xfc, 0xff, 0xff, 0xff, 0xff, 0xff, 0xff,
        0xff,
    ];
    let wide = <Rela64 as Pod>::cast(&stored).ok_or("too few bytes")?;
    assert_eq!(rt; told(&wide, LittleEndian), (1, 0, 9, -4));
    assert_eq!(rt; symbol(&wide, LittleEndian), None);
    assert_eq!(rt; symbol(&wide, BigEndian), Some(0x0900_0000));
    let narrow = <Rela32 as Pod>::cast(&[0, 0, 0, 8, 0, 0, 3, 1, 0x80, 0, 0, 0]).ok_or(
        "too few bytes",
    )?;
    assert_eq!(rt; told(&narrow, BigEndian), (8, 3, 1, -2147483648));
    Ok(())
}

fn header(sh_type: u32, sh_offset: u64, sh_size: u64) -> Header {
    Header {
        sh_type,
        sh_offset,
        sh_size,
        sh_link: 0,
        sh_info: 0,
    }
}

// Section headers of a 64-bit little-endian object, one after another.
fn wide_table(heap: Global, headers: &[Header]) -> Result<Vec<u8>, AllocError> {
    let mut bytes = Vec::new(heap);
    for h in headers {
        bytes.extend_from_slice(&[0; 4])?;
        bytes.extend_from_slice(&h.sh_type.to_le_bytes())?;
        bytes.extend_from_slice(&[0; 16])?;
        bytes.extend_from_slice(&h.sh_offset.to_le_bytes())?;
        bytes.extend_from_slice(&h.sh_size.to_le_bytes())?;
        bytes.extend_from_slice(&h.sh_link.to_le_bytes())?;
        bytes.extend_from_slice(&h.sh_info.to_le_bytes())?;
        bytes.extend_from_slice(&[0; 16])?;
    }
    Ok(bytes)
}

// The number of the refusal of an opening, none where it opens.
fn refusal<'a, R: ReadRef<'a> + Drop, C: Class + Drop, E: Endian + Drop>(
    source: R,
    table: HeaderTable<C, E>,
) -> Option<u8> {
    ElfFile::open(source, table)
        .err()
        .map(|fault| fault.kind.number())
}

#[test]
fn opening_refuses_in_its_order(rt: HostRuntime) -> Result<(), Fail> {
    let heap = rt.alloc();
    let made = wide_table(heap, &[header(0, 0, 0), header(9, 0, 0)])?;
    let bytes = made.as_slice();
    assert!(rt; bytes.len() == 128);
    let cases = [
        (0, 2, None),
        (64, 1, Some(3)),
        (0, 3, Some(1)),
        (1, 2, Some(1)),
        (u64::MAX, 1, Some(1)),
        (u64::MAX - 63, 2, Some(1)),
        (u64::MAX, 0, None),
        (0, 65536, Some(2)),
        (u64::MAX, u64::MAX, Some(2)),
    ];
    for (start, count, number) in cases {
        let table = HeaderTable {
            class: Class64,
            endian: Endianness::Little,
            start,
            count,
        };
        assert_eq!(rt; refusal(bytes, table), number);
    }
    let none = HeaderTable {
        class: Class32,
        endian: BigEndian,
        start: 7,
        count: 0,
    };
    assert_eq!(rt; refusal(&bytes[0..0], none), None);
    let two = HeaderTable {
        class: Class64,
        endian: LittleEndian,
        start: 0,
        count: 2,
    };
    assert_eq!(rt; refusal(&bytes[0..127], two), Some(1));
    let window = Window::new(bytes, 64, 64)?;
    let one = HeaderTable { count: 1, ..two };
    assert_eq!(rt; refusal(window, one), Some(3));
    Ok(())
}

#[test]
fn every_relocation_type_is_refused_first(rt: HostRuntime) {
    let cases = [
        ([0, 0, 0, 9], Some(3)),
        ([0, 0, 0, 4], Some(3)),
        ([0x40, 0, 0, 0x14], Some(3)),
        ([9, 0, 0, 0], None),
        ([0, 0, 0, 8], None),
    ];
    let table = HeaderTable {
        class: Class32,
        endian: BigEndian,
        start: 0,
        count: 1,
    };
    for (stored, number) in cases {
        let mut bytes = [0u8; 40];
        bytes[4..8].copy_from_slice(&stored);
        assert_eq!(rt; refusal(&bytes[..], table), number);
    }
}

#[test]
fn the_most_headers_are_65535(rt: HostRuntime) -> Result<(), Fail> {
    let heap = rt.alloc();
    let narrow = vec![in heap; 0u8; 40 * 65536]?;
    let cases = [
        (0, 65535, None),
        (40, 65535, None),
        (41, 65535, Some(1)),
        (0, 65536, Some(2)),
    ];
    for (start, count, number) in cases {
        let table = HeaderTable {
            class: Class32,
            endian: LittleEndian,
            start,
            count,
        };
        assert_eq!(rt; refusal(narrow.as_slice(), table), number);
    }
    let wide = vec![in heap; 0u8; 64 * 65535]?;
    for (start, number) in [(0, None), (1, Some(1))] {
        let table = HeaderTable {
            class: Class64,
            endian: BigEndian,
            start,
            count: 65535,
        };
        assert_eq!(rt; refusal(wide.as_slice(), table), number);
    }
    Ok(())
}

// The length of a section's payload, or the number of its fault.
fn reached<'a, O: Sections<'a>>(object: &O, index: u32) -> Result<usize, u8> {
    object
        .payload(index)
        .map(|payload| payload.len())
        .map_err(|fault| fault.kind.number())
}

#[test]
fn payloads_are_parts_of_the_source(rt: HostRuntime) -> Result<(), Fail> {
    let made = wide_table(
        rt.alloc(),
        &[
            header(0, 0, 0),
            header(1, 0, 64),
            header(8, u64::MAX, 512),
            header(1, u64::MAX, 0),
            header(1, 383, 1),
            header(4, u64::MAX - 7, 16),
        ],
    )?;
    let table = HeaderTable {
        class: Class64,
        endian: LittleEndian,
        start: 0,
        count: 6,
    };
    let object = ElfFile::open(made.as_slice(), table)?;
    assert_eq!(rt; object.count(), 6);
    let cases = [
        (0, Err(5)),
        (1, Ok(64)),
        (2, Ok(0)),
        (3, Ok(0)),
        (4, Ok(1)),
        (5, Err(12)),
        (6, Err(5)),
        (u32::MAX, Err(5)),
    ];
    for (index, answer) in cases {
        assert_eq!(rt; reached(&object, index), answer);
    }
    assert_eq!(rt; object.header(0), Ok(header(0, 0, 0)));
    assert_eq!(rt;
        object.section(0),
        Err(Fault::direct(FaultKind::NoSuchSection))
    );
    assert_eq!(rt; object.section(2), Ok(header(8, u64::MAX, 512)));
    assert_eq!(rt;
        object.header(6),
        Err(Fault::direct(FaultKind::NoSuchSection))
    );
    Ok(())
}

#[test]
fn an_inventory_names_damage_and_lists_the_rest(rt: HostRuntime) -> Result<(), Fail> {
    let heap = rt.alloc();
    let made = wide_table(
        heap,
        &[header(0, 9, 9), header(1, 200, 100), header(1, 0, 7)],
    )?;
    let table = HeaderTable {
        class: ClassName::Class64,
        endian: Endianness::Little,
        start: 0,
        count: 3,
    };
    let rows = take(made.as_slice(), table, heap)?;
    let rows = rows.as_slice();
    assert!(rt; rows.len() == 3);
    assert_eq!(rt; rows[0].header, header(0, 9, 9));
    assert_eq!(rt; rows[0].payload, State::Reserved);
    assert_eq!(rt;
        rows[1].payload,
        State::Damaged(Fault::direct(FaultKind::PayloadOutside))
    );
    assert_eq!(rt; rows[2].index, 2);
    assert_eq!(rt; rows[2].payload, State::Read(7));
    let summary = Summary {
        sections: 2,
        readable: 1,
        damaged: 1,
    };
    assert_eq!(rt; Summary::of(rows), summary);
    Ok(())
}

// A 32-bit big-endian object behind three other bytes: section 1 has the bytes 1, 2, 3 and 4, which are the last.
fn narrow_object() -> [u8; 83] {
    let mut bytes = [0; 83];
    let header = 3 + 40;
    bytes[header + 7] = 1;
    bytes[header + 19] = 76;
    bytes[header + 23] = 4;
    bytes[header + 27] = 5;
    bytes[header + 31] = 6;
    bytes[79..].copy_from_slice(&[1, 2, 3, 4]);
    bytes
}

#[test]
fn a_payload_is_read_through_a_window(rt: HostRuntime) -> Result<(), Fail> {
    let bytes = narrow_object();
    let window = Window::new(&bytes[..], 3, 80)?;
    let table = HeaderTable {
        class: Class32,
        endian: BigEndian,
        start: 0,
        count: 2,
    };
    let object = ElfFile::open(window, table)?;
    let said = Header {
        sh_type: 1,
        sh_offset: 76,
        sh_size: 4,
        sh_link: 5,
        sh_info: 6,
    };
    assert_eq!(rt; object.section(1), Ok(said));
    assert!(rt; matches!(object.payload(1), Ok([1, 2, 3, 4])));
    Ok(())
}

#[test]
fn a_narrow_big_endian_object_has_an_inventory(rt: HostRuntime) -> Result<(), Fail> {
    let bytes = narrow_object();
    let table = HeaderTable {
        class: ClassName::Class32,
        endian: Endianness::Big,
        start: 0,
        count: 2,
    };
    let rows = take(&bytes[3..], table, rt.alloc())?;
    let rows = rows.as_slice();
    assert!(rt; rows.len() == 2);
    assert_eq!(rt; rows[1].header.link(), 5);
    assert_eq!(rt; rows[1].payload, State::Read(4));
    Ok(())
}
