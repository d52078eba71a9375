use crate::clauses::clause_keeps;
use builtin_table::Table;
use program::Clause;
use std::alloc::Global;
use std::test::Fail;
use term_core::{App, Memory, Term};

// A clause of `$x/0`, which is the library's or the client's own.
fn dollar(alloc: Global, own: bool) -> Result<Clause, Memory> {
    Ok(Clause {
        head: Term::atom(alloc, "$x")?,
        body: Term::atom(alloc, "true")?,
        vars: 0,
        own,
    })
}

#[test]
fn only_the_library_has_names_with_a_dollar(rt: HostRuntime) -> Result<(), Fail> {
    let alloc = rt.alloc();
    let table = Table::of(alloc, App::School)?;
    assert!(rt; clause_keeps(alloc, &table, &dollar(alloc, false)?)?);
    assert!(rt; !clause_keeps(alloc, &table, &dollar(alloc, true)?)?);
    Ok(())
}
