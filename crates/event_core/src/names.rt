// The term of which each answer gives an instance, and the names that stand with it.
ghost use Rattle.std.specs.Prelude.{◌≡◌, IfOk, map};
ghost use Rattle.term_core.specs.Tree.{variable};
ghost use Rattle.event_core.specs.Names.{answer_term, names_told};

use crate::request::Ask;
use std::alloc::Global;
use term_core::{List, Memory, Name, Term};
use tree_results::list_of;

// The variables that have names.
fn variables_of(alloc: Global, named: &[(Name, u64)]) -> Result<Vec<Term>, Memory>
    ensures { IfOk result (λ v. v.items ≡ map (λ p. variable p.1) named.now) }
{
    let mut variables = Vec::new(alloc);
    for (_, number) in named {
        variables.push(Term::var(alloc, *number)?)?;
    }
    Ok(variables)
}

// The term of which the answers of a query are instances.
pub(crate) fn answer_term(alloc: Global, names: bool, ask: &Ask) -> Result<Term, Memory>
    ensures { IfOk result (λ t. t ≡ answer_term names ask.now) }
{
    let template = ask.template.copied(alloc)?;
    if !names {
        return Ok(template);
    }
    let variables = variables_of(alloc, ask.names.as_slice())?;
    let list = list_of(alloc, &variables)?;
    Term::comp(alloc, "$answer", &[template, list])
}

// The names alone.
fn names_of(alloc: Global, named: &[(Name, u64)]) -> Result<List<Name>, Memory>
    ensures { IfOk result (λ ns. ns ≡ map (λ p. p.0) named.now) }
{
    let mut names = List::new(alloc);
    for (name, _) in named {
        names.push(name.copied(alloc)?)?;
    }
    Ok(names)
}

// The names that the successes of a query tell; none for a pengine without names.
pub(crate) fn names_told(
    alloc: Global,
    names: bool,
    ask: &Ask,
) -> Result<Option<List<Name>>, Memory>
    ensures { IfOk result (λ ns. ns ≡ names_told names ask.now) }
{
    if !names {
        return Ok(None);
    }
    let names = names_of(alloc, ask.names.as_slice())?;
    Ok(Some(names))
}
