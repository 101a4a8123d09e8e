// The tables of rows, what answers them, and how they are tried.

use crate::files::of_file;
use crate::plain::{note, plain, show};
use crate::{
    base, diagnostics, folding, lexer, machine, naming, rows, scripts, serve, streams, texts, types,
};
use hack_show::Out;
use hack_types::{Names, NoMemory};
use std::alloc::Global;
use std::test::Fail;

/// A table of rows. Scripts come in pieces of so many bytes.
#[derive(Clone, Copy)]
pub(crate) enum Table {
    Words,
    Lists,
    NoWords,
    Bytes,
    NameOrder,
    Builtin,
    Reads,
    Writes,
    Sources,
    Sinks,
    Names,
    SymbolOrder,
    TypeTexts,
    Written,
    Ordered,
    Naming,
    Scripts(usize),
    Limits,
    Faults,
    Replies,
    Tokens,
    Files,
    Trees,
    Signatures,
    Options,
    Nodes,
    Joins,
    PutIn,
    Different,
    Folded,
    Lines,
    Below,
    Solved,
    Operators,
    WrittenTypes,
    Expressions,
    Uses,
    Targets,
    Units,
    Machine,
    Served(usize),
    Stopped,
    Statuses,
}

const ALL: [Table; 47] = [
    Table::Words,
    Table::Lists,
    Table::NoWords,
    Table::Bytes,
    Table::NameOrder,
    Table::Builtin,
    Table::Reads,
    Table::Writes,
    Table::Sources,
    Table::Sinks,
    Table::Names,
    Table::SymbolOrder,
    Table::TypeTexts,
    Table::Written,
    Table::Ordered,
    Table::Naming,
    Table::Scripts(1),
    Table::Scripts(7),
    Table::Scripts(4096),
    Table::Limits,
    Table::Faults,
    Table::Replies,
    Table::Tokens,
    Table::Files,
    Table::Trees,
    Table::Signatures,
    Table::Options,
    Table::Nodes,
    Table::Joins,
    Table::PutIn,
    Table::Different,
    Table::Folded,
    Table::Lines,
    Table::Below,
    Table::Solved,
    Table::Operators,
    Table::WrittenTypes,
    Table::Expressions,
    Table::Uses,
    Table::Targets,
    Table::Units,
    Table::Machine,
    Table::Served(1),
    Table::Served(7),
    Table::Served(4096),
    Table::Stopped,
    Table::Statuses,
];

impl Table {
    fn rows(self) -> &'static str {
        match self {
            Table::Words => rows::words::WORDS,
            Table::Lists => rows::words::LISTS,
            Table::NoWords => rows::words::NO_WORDS,
            Table::Bytes => rows::base::BYTES,
            Table::NameOrder => rows::base::NAMES,
            Table::Builtin => rows::base::BUILTIN,
            Table::Reads => rows::streams::READS,
            Table::Writes => rows::streams::WRITES,
            Table::Sources => rows::streams::SOURCES,
            Table::Sinks => rows::streams::SINKS,
            Table::Names => rows::types::NAMES,
            Table::SymbolOrder => rows::types::SYMBOLS,
            Table::TypeTexts => rows::types::TEXTS,
            Table::Written => rows::diag::WRITTEN,
            Table::Ordered => rows::diag::ORDERED,
            Table::Naming => rows::naming::STEPS,
            Table::Scripts(_) => rows::scripts::SCRIPTS,
            Table::Limits => rows::scripts::LIMITS,
            Table::Faults => rows::scripts::FAULTS,
            Table::Replies => rows::scripts::REPLIES,
            Table::Tokens => rows::lexer::TOKENS,
            Table::Files => rows::parse_decl::FILES,
            Table::Trees => rows::parse_decl::TREES,
            Table::Signatures => rows::shallow::SIGNATURES,
            Table::Options => rows::types::OPTIONS,
            Table::Nodes => rows::types::NODES,
            Table::Joins => rows::types::JOINS,
            Table::PutIn => rows::types::PUT_IN,
            Table::Different => rows::types::DIFFERENT,
            Table::Folded => rows::folding::FOLDED,
            Table::Lines => rows::folding::LINES,
            Table::Below => rows::below::BELOW,
            Table::Solved => rows::inferring::SOLVED,
            Table::Operators => rows::operators::OPERATORS,
            Table::WrittenTypes => rows::written::WRITTEN,
            Table::Expressions => rows::expressions::EXPRESSIONS,
            Table::Uses => rows::uses::USES,
            Table::Targets => rows::targets::TARGETS,
            Table::Units => rows::first::UNITS,
            Table::Machine => rows::machine::RUNS,
            Table::Served(_) => rows::serve::SERVED,
            Table::Stopped => rows::serve::STOPPED,
            Table::Statuses => rows::serve::STATUSES,
        }
    }

    // Shows the answer to a text.
    fn answer(self, alloc: Global, out: &mut Out<'_>, text: &[u8]) -> Result<(), NoMemory> {
        match self {
            Table::Words => base::value(out, text),
            Table::Lists => base::listed(out, text),
            Table::NoWords => base::listed_none(out, text),
            Table::Bytes => base::given_back(alloc, out, text),
            Table::NameOrder => base::in_order(out, text, false),
            Table::SymbolOrder => base::in_order(out, text, true),
            Table::Builtin => base::builtin(out),
            Table::Reads => streams::read(alloc, out, text),
            Table::Writes => streams::write(alloc, out, text),
            Table::Sources => streams::source(alloc, out, text),
            Table::Sinks => streams::sink(alloc, out, text),
            Table::Names => types::interned(alloc, out, text),
            Table::TypeTexts => texts::written(alloc, out, text),
            Table::Written => diagnostics::written(alloc, out, text),
            Table::Ordered => diagnostics::ordered(alloc, out, text),
            Table::Naming => naming::counted(alloc, out, text),
            Table::Scripts(piece) => scripts::outlined(alloc, out, text, piece),
            Table::Limits => scripts::outlined(alloc, out, text, 60_000),
            Table::Faults => scripts::outlined(alloc, out, text, 2),
            Table::Replies => scripts::replied(alloc, out, text),
            Table::Tokens => lexer::cut(alloc, out, text),
            Table::Machine => machine::ended(alloc, out, text),
            Table::Served(piece) => serve::served(alloc, out, text, piece),
            Table::Stopped => serve::served(alloc, out, text, 1),
            Table::Statuses => serve::status(alloc, out, text),
            _ => of_file(alloc, self, out, text),
        }
    }
}

// Each row that differs is shown, and how many don't. Those of scripts count three times.
#[test]
fn each_row_has_its_answer(rt: HostRuntime) -> Result<(), Fail> {
    let report = try_all(rt.alloc())?;
    assert_eq!(rt; str::from_utf8(&report).unwrap_or("?"), "2545 rows");
    Ok(())
}

fn try_all(alloc: Global) -> Result<Vec<u8>, NoMemory> {
    let names = Names::new(alloc);
    let mut report = Out::new(alloc, &names);
    let mut right: u32 = 0;
    for table in ALL {
        right = right.wrapping_add(try_table(alloc, table, &mut report));
    }
    report.number(right as u64);
    report.word("rows");
    let report = report.finish();
    drop(names);
    report
}

fn try_table(alloc: Global, table: Table, report: &mut Out<'_>) -> u32 {
    let mut right: u32 = 0;
    for row in table.rows().split('\n') {
        if is_row(row) && is_right(alloc, table, row, report) {
            right = right.wrapping_add(1);
        }
    }
    right
}

// Whether a line is a row: none is empty, and a line behind `-- ` says what the rows below it are about.
fn is_row(line: &str) -> bool {
    !line.is_empty() && line.strip_prefix("-- ").is_none()
}

fn is_right(alloc: Global, table: Table, row: &str, report: &mut Out<'_>) -> bool {
    match try_row(alloc, table, row, report) {
        Ok(right) => right,
        Err(NoMemory) => {
            report.push(b"no memory\n");
            false
        }
    }
}

fn try_row(alloc: Global, table: Table, row: &str, report: &mut Out<'_>) -> Result<bool, NoMemory> {
    let Some((text, wanted)) = row.split_once(" ¦ ") else {
        report.push(row.as_bytes());
        report.push(b"\nno answer\n");
        return Ok(false);
    };
    let found = answer_to(alloc, table, text)?;
    let right = has_bytes(alloc, found.as_slice(), wanted);
    if let Ok(false) = right {
        report.push(row.as_bytes());
        report.push(b"\nfound: ");
        show(report, found.as_slice());
        report.push(b"\n");
    }
    drop(found);
    right
}

fn has_bytes(alloc: Global, found: &[u8], wanted: &str) -> Result<bool, NoMemory> {
    let wanted = bytes_of(alloc, wanted)?;
    let right = found == wanted.as_slice();
    drop(wanted);
    Ok(right)
}

fn answer_to(alloc: Global, table: Table, text: &str) -> Result<Vec<u8>, NoMemory> {
    let bytes = bytes_of(alloc, text)?;
    let names = Names::new(alloc);
    let mut out = Out::new(alloc, &names);
    let done = table.answer(alloc, &mut out, bytes.as_slice());
    drop(bytes);
    note(&mut out, done);
    let found = out.finish();
    drop(names);
    found
}

fn bytes_of(alloc: Global, text: &str) -> Result<Vec<u8>, NoMemory> {
    let names = Names::new(alloc);
    let mut out = Out::new(alloc, &names);
    plain(&mut out, text);
    let bytes = out.finish();
    drop(names);
    bytes
}
