// Error terms (ISO/IEC 13211-1, 7.12.2).
ghost use Rattle.std.specs.Prelude.{◌≡◌, codes, IfOk};
ghost use Rattle.term_core.specs.Tree.{atom};
ghost use Rattle.builtin_table.specs.Errors.{one_argument, two_arguments, indicator_term, error_term, instantiation_error as instantiation_error_tree, type_error as type_error_tree, domain_error as domain_error_tree, existence_error as existence_error_tree, representation_error as representation_error_tree, evaluation_error as evaluation_error_tree, resource_error as resource_error_tree, syntax_error as syntax_error_tree};

use std::alloc::Global;
use term_core::{Memory, Pi, Term};

// A compound of this name and two arguments.
fn pair(alloc: Global, name: &str, first: Term, second: Term) -> Result<Term, Memory>
    ensures { IfOk result (λ t. t ≡ two_arguments name.now first second) }
{
    let args = vec![in alloc; first, second]?;
    Term::comp(alloc, name, &args)
}

// A compound of this name and the atom of this word.
fn of_word(alloc: Global, name: &str, word: &str) -> Result<Term, Memory>
    ensures { IfOk result (λ t. t ≡ one_argument name.now (atom word.now)) }
{
    let args = vec![in alloc; Term::atom(alloc, word)?]?;
    Term::comp(alloc, name, &args)
}

// A compound of this name, the atom of this word, and the culprit.
fn with_culprit(alloc: Global, name: &str, word: &str, culprit: Term) -> Result<Term, Memory>
    ensures { IfOk result (λ t. t ≡ two_arguments name.now (atom word.now) culprit) }
{
    let word = Term::atom(alloc, word)?;
    pair(alloc, name, word, culprit)
}

/// An indicator as a term, `Name/Arity`.
pub fn indicator(alloc: Global, pi: &Pi) -> Result<Term, Memory>
    ensures { IfOk result (λ t. t ≡ indicator_term pi.now) }
{
    let name = Term::atom(alloc, pi.name.as_str())?;
    let arity = Term::int(alloc, i128::from(pi.arity))?;
    pair(alloc, "/", name, arity)
}

/// The whole error, `error(Formal, Context)`: what is wrong, and where it was found.
pub fn error(alloc: Global, formal: Term, context: Term) -> Result<Term, Memory>
    ensures { IfOk result (λ t. t ≡ error_term formal context) }
{
    pair(alloc, "error", formal, context)
}

/// What is wrong where a variable stands in the place of a value (7.12.2 a).
pub fn instantiation_error(alloc: Global) -> Result<Term, Memory>
    ensures { IfOk result (λ t. t ≡ instantiation_error_tree) }
{
    Term::atom(alloc, "instantiation_error")
}

/// What is wrong where the culprit isn't of this kind, as `integer` (7.12.2 b).
pub fn type_error(alloc: Global, kind: &str, culprit: Term) -> Result<Term, Memory>
    ensures { IfOk result (λ t. t ≡ type_error_tree kind.now culprit) }
{
    with_culprit(alloc, "type_error", kind, culprit)
}

/// What is wrong where the culprit is out of this range, as `not_less_than_zero` (7.12.2 c).
pub fn domain_error(alloc: Global, range: &str, culprit: Term) -> Result<Term, Memory>
    ensures { IfOk result (λ t. t ≡ domain_error_tree range.now culprit) }
{
    with_culprit(alloc, "domain_error", range, culprit)
}

/// What is wrong where no predicate has this indicator (7.12.2 d).
pub fn existence_error(alloc: Global, pi: &Pi) -> Result<Term, Memory>
    ensures { IfOk result (λ t. t ≡ existence_error_tree pi.now) }
{
    let culprit = indicator(alloc, pi)?;
    with_culprit(alloc, "existence_error", "procedure", culprit)
}

/// What is wrong where this limit is passed, as `max_arity` (7.12.2 f).
pub fn representation_error(alloc: Global, limit: &str) -> Result<Term, Memory>
    ensures { IfOk result (λ t. t ≡ representation_error_tree limit.now) }
{
    of_word(alloc, "representation_error", limit)
}

/// What is wrong where an expression has no value, for this reason, as `zero_divisor` (7.12.2 g).
pub fn evaluation_error(alloc: Global, reason: &str) -> Result<Term, Memory>
    ensures { IfOk result (λ t. t ≡ evaluation_error_tree reason.now) }
{
    of_word(alloc, "evaluation_error", reason)
}

/// What is wrong where this resource is wanting, as `text` (7.12.2 h).
pub fn resource_error(alloc: Global, resource: &str) -> Result<Term, Memory>
    ensures { IfOk result (λ t. t ≡ resource_error_tree resource.now) }
{
    of_word(alloc, "resource_error", resource)
}

/// What is wrong where a text is no such term, as `illegal_number` (7.12.2 i).
pub fn syntax_error(alloc: Global, fault: &str) -> Result<Term, Memory>
    ensures { IfOk result (λ t. t ≡ syntax_error_tree fault.now) }
{
    of_word(alloc, "syntax_error", fault)
}
