//! What the program answers to words, and to files that it cannot use.
use super::report::Report;
use super::{HELP, Problem, answer};
use classes::Header;
use elf::file::HeaderTable;
use endian::Endianness;
use faults::{Fault, FaultKind};
use inventory::{ClassName, Row, State};
use std::alloc::{AllocError, Global};
use std::test::Fail;
use words::Request;

fn texts(heap: Global, words: &[&str]) -> Result<Vec<String>, AllocError> {
    words
        .iter()
        .map(|word| String::from_str(heap, word))
        .try_collect(heap)
}

// Checks that the words are answered, or refused, by a text that starts so.
fn expect(rt: &HostRuntime, words: &[&str], start: Result<&str, &str>) -> Result<(), Fail> {
    let words = texts(rt.alloc(), words)?;
    let (text, start) = match (answer(rt, &words), start) {
        (Ok(text), Ok(start)) => (text, start),
        (Err(problem), Err(start)) => (format!(in rt.alloc(); "{problem}")?, start),
        _ => return Err(Fail::new(
            "answered where a refusal is wanted, or refused where an answer is",
        )),
    };
    if !text.starts_with(start) {
        return Err(Fail::new("another text"));
    }
    Ok(())
}

#[test]
fn words_and_files_are_answered_or_named(rt: HostRuntime) -> Result<(), Fail> {
    expect(&rt, &[], Err("no command is given; see boulesbeech --help"))?;
    expect(
        &rt,
        &["list", "a.o"],
        Err("there is no command 'list'; see"),
    )?;
    expect(
        &rt,
        &["inventory", "a", "64", "little", "0"],
        Err("inventory takes FILE CLASS ORDER TABLE COUNT"),
    )?;
    expect(
        &rt,
        &["inventory", "a", "65", "small", "", ""],
        Err("CLASS is 32 or 64, and not '65'; see"),
    )?;
    expect(
        &rt,
        &["inventory", "a", "32", "small", "", ""],
        Err("ORDER is little or big, and not 'small'; see"),
    )?;
    expect(
        &rt,
        &["inventory", "no/such/file", "64", "big", "0", "1"],
        Err("no/such/file: "),
    )?;
    expect(
        &rt,
        &["inventory", "/dev/null", "64", "little", "0", "1"],
        Err(
            "/dev/null: fault 1: the section header table lies outside the source (the file has 0 bytes; TABLE is 0, COUNT is 1)",
        ),
    )?;
    expect(
        &rt,
        &["inventory", "/dev/null", "64", "little", "0", "65536"],
        Err("/dev/null: fault 2: "),
    )?;
    expect(
        &rt,
        &["inventory", "/dev/null", "64", "big", "0xffFF", "0x0"],
        Ok("/dev/null: 0 bytes, 64-bit, big-endian, 0 section headers at 65535\n"),
    )?;
    expect(&rt, &["-h"], Ok("boulesbeech reads section headers"))?;
    expect(&rt, &["help", "me"], Ok(HELP))
}

#[test]
fn numbers_are_decimal_or_hexadecimal(rt: HostRuntime) -> Result<(), Fail> {
    for word in [
        "",
        "0x",
        "-1",
        " 1",
        "1k",
        "0X10",
        "18446744073709551616",
        "0x10000000000000000",
    ] {
        expect(
            &rt,
            &["inventory", "/dev/null", "32", "big", word, "0"],
            Err("TABLE is a number"),
        )?;
        expect(
            &rt,
            &["inventory", "/dev/null", "32", "big", "0", word],
            Err("COUNT is a number"),
        )?;
    }
    Ok(())
}

fn row(index: u16, sh_type: u32, sh_size: u64, sh_link: u32, payload: State) -> Row {
    let header = Header {
        sh_type,
        sh_offset: 52,
        sh_size,
        sh_link,
        sh_info: 3,
    };
    Row {
        index,
        header,
        payload,
    }
}

const REPORT: &str = "\
a.o: 9 bytes, 32-bit, big-endian, 3 section headers at 7
section  type            number  offset   size   link  info  payload
      0  NULL                 0      52      0      0     3  reserved
  65534  PROGBITS             1      52      1  43210     3  1 byte
  65535  (unknown)           12      52  12345      0     3  fault 12: the payload lies outside the source
sections: 2, readable: 1, damaged: 1
";

#[test]
fn columns_are_as_wide_as_their_numbers(rt: HostRuntime) -> Result<(), Fail> {
    let damaged = State::Damaged(Fault::direct(FaultKind::PayloadOutside));
    let report = Report {
        request: Request {
            file: "a.o",
            table: HeaderTable {
                class: ClassName::Class32,
                endian: Endianness::Big,
                start: 7,
                count: 3,
            },
        },
        len: 9,
        rows: &[
            row(0, 0, 0, 0, State::Reserved),
            row(65534, 1, 1, 43210, State::Read(1)),
            row(65535, 12, 12345, 0, damaged),
        ],
    };
    let text = format!(in rt.alloc(); "{report}")?;
    assert!(rt; text.as_str() == REPORT);
    Ok(())
}
