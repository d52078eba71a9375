// The clauses of whole texts.
ghost use Rattle.std.specs.Prelude.{◌≡◌, ◌++◌, true, false, None, IfOk, IfErr, OnOk};
ghost use Rattle.std.specs.Option.{option_map, option_to_list};
ghost use Rattle.program.specs.Kept.{clause_of};
ghost use Rattle.program.specs.Source.{AreNumbered, trees_read, clauses_in, first_fault, Tells};

use crate::clause_map::ClauseMap;
use crate::entry::Entry;
use crate::fault::ProgFault;
use crate::source::{library_entry, own_entry};
use op_table::Ops;
use std::alloc::Global;
use term_core::{Memory, Pi, ReadTerm};

// The clauses of a client's text.
pub(crate) fn own_clauses(
    alloc: Global,
    terms: &[ReadTerm],
    reserved: &[Pi],
) -> Result<ClauseMap, ProgFault>
    requires { AreNumbered terms.now }
    ensures clauses { IfOk result (λ m. m ≡ clauses_in true (trees_read terms.now)) }
    ensures accepted { OnOk result (first_fault reserved.now 1 (trees_read terms.now) ≡ None) }
    ensures refused { IfErr result (Tells (first_fault reserved.now 1 (trees_read terms.now))) }
{
    let mut ops = Ops::iso(alloc)?;
    let mut clauses = ClauseMap::new(alloc);
    for i in 0..terms.len() {
        let entry = own_entry(alloc, &terms[i].term, i as u64 + 1, reserved, &mut ops)?;
        clauses = with_entry(alloc, clauses, entry)?;
    }
    Ok(clauses)
}

// The clauses of a library's text.
pub(crate) fn library_clauses(alloc: Global, terms: &[ReadTerm]) -> Result<ClauseMap, Memory>
    requires { AreNumbered terms.now }
    ensures { IfOk result (λ m. m ≡ clauses_in false (trees_read terms.now)) }
{
    let mut clauses = ClauseMap::new(alloc);
    for i in 0..terms.len() {
        let entry = library_entry(alloc, &terms[i].term)?;
        clauses = with_entry(alloc, clauses, entry)?;
    }
    Ok(clauses)
}

fn with_entry(alloc: Global, clauses: ClauseMap, entry: Option<Entry>) -> Result<ClauseMap, Memory>
    ensures { IfOk result (λ m. m ≡ clauses ++ option_to_list (option_map (λ e. clause_of e.clause) entry)) }
{
    match entry {
        Some(entry) => clauses.with(alloc, entry),
        None => Ok(clauses),
    }
}
