// Tables of texts: their tokens, terms and clauses, how terms are written, operators.
use crate::faults::read_fault;
use crate::row::Row;
use crate::stop::Stop;
use crate::terms::{shown, term};
use op_table::{Op, OpFault, Ops};
use prolog_lex::{LexFault, TokenValue, tokens, value};
use prolog_read::{ReadFault, read_clauses, read_term};
use prolog_write::Mode;
use std::alloc::Global;
use term_core::{ReadTerm, Term};

/// Adds what a token stands for.
fn push_value(shown: &mut String, value: &TokenValue) -> Result<(), Stop> {
    match value {
        TokenValue::Name(name) | TokenValue::Variable(name) => write!(shown, " {}", name.as_str())?,
        TokenValue::Integer(value) => write!(shown, " {value}")?,
        TokenValue::Text(characters) => {
            shown.push(' ')?;
            for c in characters.as_slice() {
                shown.push(*c)?;
            }
        }
        TokenValue::Mark => {}
    }
    Ok(())
}

/// The kind, the place and the value of each token of a text, or the fault.
pub(crate) fn tokens_of(alloc: Global, text: &str) -> Result<String, Stop> {
    let found = match tokens(alloc, text) {
        Ok(found) => found,
        Err(LexFault::Memory) => return Err(Stop::Memory),
        Err(fault) => return read_fault(alloc, ReadFault::Lex(fault)),
    };
    let mut shown = String::new(alloc);
    for token in &found {
        write!(shown, "{:?} {}-{}", token.kind, token.from, token.to)?;
        push_value(&mut shown, &value(alloc, text, token)?)?;
        shown.push(';')?;
    }
    Ok(shown)
}

/// Adds a term without operators, and its variables' names with their numbers.
fn push_read(alloc: Global, all: &mut String, read: &ReadTerm) -> Result<(), Stop> {
    let text = shown(alloc, &read.term, Mode::Canonical)?;
    all.push_str(text.as_str())?;
    for (name, number) in read.names.as_slice() {
        write!(all, " {}={number}", name.as_str())?;
    }
    Ok(())
}

/// The term of a text, or the fault.
pub(crate) fn term_of(alloc: Global, text: &str) -> Result<String, Stop> {
    let ops = Ops::iso(alloc)?;
    match read_term(alloc, text, &ops) {
        Ok(read) => {
            let mut all = String::new(alloc);
            push_read(alloc, &mut all, &read)?;
            Ok(all)
        }
        Err(fault) => read_fault(alloc, fault),
    }
}

/// The clauses of a text, or the fault.
pub(crate) fn clauses_of(alloc: Global, text: &str) -> Result<String, Stop> {
    match read_clauses(alloc, text) {
        Ok(found) => {
            let mut all = String::new(alloc);
            for read in &found {
                push_read(alloc, &mut all, read)?;
                all.push_str(". ")?;
            }
            Ok(all)
        }
        Err(fault) => read_fault(alloc, fault),
    }
}

/// A term as it is quoted and without operators; both are read again as the term.
pub(crate) fn written_of(alloc: Global, field: &str) -> Result<String, Stop> {
    let read = term(alloc, field)?;
    let quoted = shown(alloc, &read, Mode::Quoted)?;
    let canonical = shown(alloc, &read, Mode::Canonical)?;
    if term(alloc, &quoted)? != read || term(alloc, &canonical)? != read {
        return Err(Stop::Malformed);
    }
    Ok(format!(in alloc; "{quoted}\t{canonical}")?)
}

/// An atom as it is quoted and plain.
pub(crate) fn atom_of(alloc: Global, name: &str) -> Result<String, Stop> {
    let atom = Term::atom(alloc, name)?;
    let quoted = shown(alloc, &atom, Mode::Quoted)?;
    let plain = shown(alloc, &atom, Mode::Plain)?;
    Ok(format!(in alloc; "{quoted}\t{plain}")?)
}

fn operator_text(alloc: Global, op: Option<Op>) -> Result<String, Stop> {
    match op {
        Some(op) => Ok(format!(in alloc; "{} {:?}", op.priority, op.kind)?),
        None => Ok(String::from_str(alloc, "none")?),
    }
}

/// Makes a change of a table of operators: a priority, a kind and a name.
fn add(ops: &mut Ops, change: &str) -> Result<Option<OpFault>, Stop> {
    let (priority, operator) = change.split_once(' ').ok_or(Stop::Malformed)?;
    let (kind, name) = operator.split_once(' ').ok_or(Stop::Malformed)?;
    let priority = priority.parse::<i128>().map_err(|_| Stop::Malformed)?;
    Ok(ops.add(priority, kind, name).err())
}

/// The prefix and the infix operator of a name after changes, or the fault of a change.
pub(crate) fn operators_of(alloc: Global, row: &Row) -> Result<String, Stop> {
    let mut ops = Ops::iso(alloc)?;
    for change in row.field(1).split("; ").filter(|change| !change.is_empty()) {
        if let Some(fault) = add(&mut ops, change)? {
            return Ok(format!(in alloc; "{fault:?}")?);
        }
    }
    let prefix = operator_text(alloc, ops.prefix(row.field(0)))?;
    let infix = operator_text(alloc, ops.infix(row.field(0)))?;
    Ok(format!(in alloc; "{prefix}\t{infix}")?)
}
