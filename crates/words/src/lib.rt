//! The words that the program is called with.
#![tactic(auto)]

ghost use Rattle.std.specs.Prelude.{map, Some, string_bytes};
ghost use Rattle.words.specs.Words.{Says, Parsed, Inventoried, told};

use elf::file::HeaderTable;
use endian::Endianness;
use inventory::ClassName;
use std::fmt;

/// What is asked for.
#[derive(Clone, Copy)]
pub enum Command<'w> {
    Help,
    Inventory(Request<'w>),
}

/// The object that is asked for.
#[derive(Clone, Copy)]
pub struct Request<'w> {
    pub file: &'w str,
    pub table: HeaderTable<ClassName, Endianness>,
}

/// What is wrong with the words.
#[derive(Clone, Copy)]
pub enum Usage<'w> {
    NoCommand,
    UnknownCommand(&'w str),
    Arguments(usize),
    Class(&'w str),
    Order(&'w str),
    Table(&'w str),
    Count(&'w str),
}

// A number in decimal, or in hexadecimal after 0x.
fn number(word: &str) -> Option<u64>
    ensures { Says word.now result }
{
    match word.strip_prefix("0x") {
        Some(digits) => u64::from_str_radix(digits, 16).ok(),
        None => word.parse().ok(),
    }
}

impl<'w> Command<'w> {
    /// Reads the words behind the program's name.
    pub fn parse(words: &'w [String]) -> Result<Command<'w>, Usage<'w>>
        ensures { Parsed (map string_bytes words.now) result }
    {
        let [command, rest @ ..] = words else {
            return Err(Usage::NoCommand);
        };
        match command.as_str() {
            "--help" | "-h" | "help" => Ok(Command::Help),
            "inventory" => Command::parse_inventory(rest),
            other => Err(Usage::UnknownCommand(other)),
        }
    }

    // Reads the words behind `inventory`.
    fn parse_inventory(words: &'w [String]) -> Result<Command<'w>, Usage<'w>>
        ensures { Inventoried (map string_bytes words.now) result }
    {
        let [file, class, order, table, count] = words else {
            return Err(Usage::Arguments(words.len()));
        };
        Ok(Command::Inventory(Request {
            file,
            table: HeaderTable {
                class: class.parse().map_err(|_| Usage::Class(class))?,
                endian: order.parse().map_err(|_| Usage::Order(order))?,
                start: number(table).ok_or(Usage::Table(table))?,
                count: number(count).ok_or(Usage::Count(count))?,
            },
        }))
    }
}

impl fmt::Display for Usage<'_> {
    ghost output = { λ u. Some (told u) };

    fn fmt<W: fmt::Write>(&self, f: &mut fmt::Formatter<W>) -> fmt::Result {
        match *self {
            Usage::NoCommand => write!(f, "no command is given"),
            Usage::UnknownCommand(word) => write!(f, "there is no command '{word}'"),
            Usage::Arguments(n) => write!(
                f,
                "inventory takes FILE CLASS ORDER TABLE COUNT, which are 5 words, and not {n}"
            ),
            Usage::Class(word) => write!(f, "CLASS is 32 or 64, and not '{word}'"),
            Usage::Order(word) => write!(f, "ORDER is little or big, and not '{word}'"),
            Usage::Table(word) => write!(
                f,
                "TABLE is a number up to 18446744073709551615, in decimal or after 0x, and not '{word}'"
            ),
            Usage::Count(word) => write!(
                f,
                "COUNT is a number up to 18446744073709551615, in decimal or after 0x, and not '{word}'"
            ),
        }
    }
}
