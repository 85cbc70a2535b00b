//! The inventory as text.
ghost use Rattle.std.specs.Prelude.{◌≡◌};
ghost use Rattle.commands.specs.Names.{type_name};

use classes::Header;
use elf::file::HeaderTable;
use inventory::{Row, State, Summary};
use std::fmt;
use words::Request;

/// An inventory, to be printed.
#[derive(Clone, Copy)]
pub struct Report<'w, 'r> {
    pub request: Request<'w>,
    /// How many bytes the file has.
    pub len: usize,
    pub rows: &'r [Row],
}

// The name of a section type, or of the range that it lies in.
fn type_name(sh_type: u32) -> &'static str
    ensures { result.now ≡ type_name sh_type }
{
    match sh_type {
        0 => "NULL",
        1 => "PROGBITS",
        2 => "SYMTAB",
        3 => "STRTAB",
        4 => "RELA",
        5 => "HASH",
        6 => "DYNAMIC",
        7 => "NOTE",
        8 => "NOBITS",
        9 => "REL",
        10 => "SHLIB",
        11 => "DYNSYM",
        14 => "INIT_ARRAY",
        15 => "FINI_ARRAY",
        16 => "PREINIT_ARRAY",
        17 => "GROUP",
        18 => "SYMTAB_SHNDX",
        19 => "RELR",
        1073741844 => "CREL",
        1879048181 => "GNU_ATTRIBUTES",
        1879048182 => "GNU_HASH",
        1879048183 => "GNU_LIBLIST",
        1879048189 => "GNU_VERDEF",
        1879048190 => "GNU_VERNEED",
        1879048191 => "GNU_VERSYM",
        0x8000_0000.. => "(user)",
        0x7000_0000.. => "(processor)",
        0x6000_0000.. => "(system)",
        _ => "(unknown)",
    }
}

// How many decimal digits a number has.
fn digits(n: u64) -> usize {
    n.checked_ilog10().map_or(1, |log| log as usize + 1)
}

// A column of numbers.
#[derive(Clone, Copy)]
struct Column {
    heading: &'static str,
    width: usize,
}

// What a header says in each column.
fn numbers(header: &Header) -> [u64; 5] {
    [
        u64::from(header.sh_type),
        header.sh_offset,
        header.sh_size,
        u64::from(header.sh_link),
        u64::from(header.sh_info),
    ]
}

// The columns, as wide as their headings and numbers need.
fn columns_of(rows: &[Row]) -> [Column; 5] {
    let mut columns = ["number", "offset", "size", "link", "info"].map(|heading| Column {
        heading,
        width: heading.len(),
    });
    for row in rows {
        for (column, number) in columns.iter_mut().zip(numbers(&row.header)) {
            column.width = column.width.max(digits(number));
        }
    }
    columns
}

fn write_heading<W: fmt::Write>(f: &mut fmt::Formatter<W>, columns: [Column; 5]) -> fmt::Result {
    write!(f, "section  type            ")?;
    for Column { heading, width } in columns {
        write!(f, "{heading:>width$}  ")?;
    }
    writeln!(f, "payload")
}

fn write_row<W: fmt::Write>(
    f: &mut fmt::Formatter<W>,
    columns: [Column; 5],
    row: &Row,
) -> fmt::Result {
    let index = row.index;
    let name = type_name(row.header.sh_type);
    write!(f, "{index:>7}  {name:<14}  ")?;
    for (Column { width, .. }, number) in columns.into_iter().zip(numbers(&row.header)) {
        write!(f, "{number:>width$}  ")?;
    }
    match row.payload {
        State::Reserved => writeln!(f, "reserved"),
        State::Read(1) => writeln!(f, "1 byte"),
        State::Read(n) => writeln!(f, "{n} bytes"),
        State::Damaged(fault) => writeln!(f, "{fault}"),
    }
}

impl fmt::Display for Report<'_, '_> {
    fn fmt<W: fmt::Write>(&self, f: &mut fmt::Formatter<W>) -> fmt::Result {
        let Report { request, len, rows } = *self;
        let file = request.file;
        let HeaderTable {
            class,
            endian,
            start,
            count,
        } = request.table;
        writeln!(
            f,
            "{file}: {len} bytes, {class}-bit, {endian}-endian, {count} section headers at {start}"
        )?;
        let columns = columns_of(rows);
        write_heading(f, columns)?;
        for row in rows {
            write_row(f, columns, row)?;
        }
        let Summary {
            sections,
            readable,
            damaged,
        } = Summary::of(rows);
        writeln!(
            f,
            "sections: {sections}, readable: {readable}, damaged: {damaged}"
        )
    }
}
