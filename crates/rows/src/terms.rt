// Terms as rows write them, and as they are shown.
use crate::stop::Stop;
use op_table::Ops;
use prolog_read::{ReadFault, read_term};
use prolog_write::{Mode, WriteStop, argument_text, text};
use std::alloc::Global;
use term_core::{Name, Pi, ReadTerm, Subst, Term};

/// The most bytes of a text that is shown.
const MOST: u64 = 1_000_000;

/// The term that a field spells.
pub(crate) fn read(alloc: Global, field: &str) -> Result<ReadTerm, Stop> {
    let ops = Ops::iso(alloc)?;
    match read_term(alloc, field, &ops) {
        Ok(read) => Ok(read),
        Err(ReadFault::Memory) => Err(Stop::Memory),
        Err(_) => Err(Stop::Malformed),
    }
}

/// The term that a field spells, where a variable `_N` has the number N.
pub(crate) fn term(alloc: Global, field: &str) -> Result<Term, Stop> {
    let read = read(alloc, field)?;
    let mut numbers = Subst::new(alloc);
    for (name, number) in read.names.as_slice() {
        if let Some(Ok(wanted)) = name.as_str().strip_prefix('_').map(|n| n.parse::<u64>()) {
            numbers.push(*number, Term::var(alloc, wanted)?)?;
        }
    }
    Ok(read.term.apply(alloc, &numbers)?)
}

/// The indicator that a field spells, as `append/3`.
pub(crate) fn indicator(alloc: Global, field: &str) -> Result<Pi, Stop> {
    let (name, arity) = field.rsplit_once('/').ok_or(Stop::Malformed)?;
    let arity = arity.parse::<u32>().map_err(|_| Stop::Malformed)?;
    let name = Name::new(alloc, name)?;
    Ok(Pi { name, arity })
}

/// A text of bytes.
pub(crate) fn of_bytes(bytes: Vec<u8>) -> Result<String, Stop> {
    String::from_utf8(bytes).map_err(|_| Stop::Malformed)
}

fn written(bytes: Result<Vec<u8>, WriteStop>) -> Result<String, Stop> {
    match bytes {
        Ok(bytes) => of_bytes(bytes),
        Err(_) => Err(Stop::Memory),
    }
}

/// A term's whole text.
pub(crate) fn shown(alloc: Global, term: &Term, mode: Mode) -> Result<String, Stop> {
    written(text(alloc, term, mode, MOST))
}

/// A term's text as an argument, without operators.
pub(crate) fn argument(alloc: Global, term: &Term) -> Result<String, Stop> {
    written(argument_text(alloc, term, Mode::Canonical, MOST))
}
