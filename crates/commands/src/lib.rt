//! What the program does with its words.
#![tactic(auto)]

ghost use Rattle.std.specs.Prelude.{◌≡◌, true, map, is_err, None, string_bytes};
ghost use Rattle.inventory.specs.Rows.{Takes};
ghost use Rattle.commands.specs.Answered.{requested, Reported, wrong, Answered};

use elf::file::HeaderTable;
use faults::Fault;
use inventory::{Failure, Row, take};
use report::Report;
use std::alloc::Global;
use std::{env, fmt, fs, io};
use words::{Command, Request, Usage};

mod report;
#[cfg(test)]
mod tests;

const HELP: &str = "\
boulesbeech reads section headers and payloads of relocatable ELF objects.

  boulesbeech inventory FILE CLASS ORDER TABLE COUNT
      opens the object in FILE, reads each section header, reaches for each
      payload, and prints a row for each header and a summary. A payload that
      lies outside the file is named with its fault; the rest is still listed.

  boulesbeech --help
      prints this text.

  CLASS   32 or 64
  ORDER   little or big
  TABLE   where the table of section headers starts, in bytes from the file's start
  COUNT   how many section headers there are, the reserved one included

TABLE and COUNT are decimal, or hexadecimal after 0x. `readelf -h FILE` prints both,
as 'Start of section headers' and 'Number of section headers'.

Example:
  boulesbeech inventory sample.o 64 little 1032 16

A file that cannot be read, a wrong word or an object that is refused is told on standard
error, with status 1, and nothing is printed on standard output.
";

/// Why there is nothing to print.
#[derive(Drop)]
enum Problem<'w> {
    Words(Usage<'w>),
    File(&'w str, io::Error),
    Refused(Request<'w>, usize, Fault),
    Memory,
}

impl fmt::Display for Problem<'_> {
    fn fmt<W: fmt::Write>(&self, f: &mut fmt::Formatter<W>) -> fmt::Result {
        match self {
            Problem::Words(usage) => write!(f, "{usage}; see boulesbeech --help"),
            Problem::File(file, error) => write!(f, "{file}: {error}"),
            Problem::Refused(request, len, fault) => {
                let file = request.file;
                let HeaderTable { start, count, .. } = request.table;
                write!(
                    f,
                    "{file}: {fault} (the file has {len} bytes; TABLE is {start}, COUNT is {count})"
                )
            }
            Problem::Memory => write!(f, "there is not enough memory"),
        }
    }
}

/// What is to be printed.
fn answer<'w>(rt: &HostRuntime, words: &'w [String]) -> Result<String, Problem<'w>>
    ensures { Answered (map string_bytes words.now) result }
{
    match Command::parse(words).map_err(Problem::Words)? {
        Command::Help => String::from_str(rt.alloc(), HELP).map_err(|_| Problem::Memory),
        Command::Inventory(request) => inventory_of(rt, request),
    }
}

fn inventory_of<'w>(rt: &HostRuntime, request: Request<'w>) -> Result<String, Problem<'w>>
    ensures { wrong result ≡ None }
{
    let file = request.file;
    let bytes = fs::read(rt, file).map_err(|error| Problem::File(file, error))?;
    reported(&bytes, request, rt.alloc())
}

// The text on the object that is asked for, out of the bytes of its file.
fn reported<'w>(bytes: &[u8], request: Request<'w>, heap: Global) -> Result<String, Problem<'w>>
    ensures { Reported bytes.now request.entry result }
{
    let len = bytes.len();
    let rows = match listed(bytes, request, heap) {
        Ok(rows) => rows,
        Err(Failure::Refused(fault)) => return Err(Problem::Refused(request, len, fault)),
        Err(Failure::Memory) => return Err(Problem::Memory),
    };
    let report = Report {
        request,
        len,
        rows: &rows,
    };
    format!(in heap; "{report}").map_err(|_| Problem::Memory)
}

// The rows of the object that is asked for, out of the bytes of its file.
fn listed(bytes: &[u8], request: Request<'_>, heap: Global) -> Result<Vec<Row>, Failure>
    ensures { Takes (requested bytes.now request.entry) result }
{
    take(bytes, request.table, heap)
}

/// The program failed, and said why.
#[derive(Clone, Copy, Debug)]
pub struct Failed;

fn complain<D: fmt::Display + Drop>(rt: &HostRuntime, problem: D) -> Result<(), Failed>
    ensures { is_err result ≡ true }
{
    let _ = eprintln!(rt; "boulesbeech: {problem}");
    Err(Failed)
}

// The words behind the program's name.
fn words_of(rt: &HostRuntime) -> io::Result<Vec<String>> {
    Ok(env::args(rt)?.skip(1).collect(rt.alloc())?)
}

/// Answers the words that the program was called with: on standard output, or why not on standard error.
pub fn run(rt: &HostRuntime) -> Result<(), Failed> {
    let words = match words_of(rt) {
        Ok(words) => words,
        Err(error) => return complain(
            rt,
            format_args!("the arguments are not readable as UTF-8 text: {error}"),
        ),
    };
    match answer(rt, &words) {
        Ok(text) => rt.print(text).or_else(|error| complain(
            rt,
            format_args!("standard output: {error}"),
        )),
        Err(problem) => complain(rt, problem),
    }
}
