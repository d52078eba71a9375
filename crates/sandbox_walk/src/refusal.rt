// Why what is shown is refused.
ghost use Rattle.std.specs.Prelude.{◌≡◌};
ghost use Rattle.std.specs.List.{list_any};
ghost use Rattle.std.specs.Option.{option_map};
ghost use Rattle.builtin_table.specs.Outside.{is_outside_in as is_outside_predicate};
ghost use Rattle.sandbox_walk.specs.Verdict.{holder_less as is_holder_less, indicator_less as is_less, is_unbound, least_outside as least_of, first_closed as first_of, lesser as lesser_of, earlier as earlier_of, least_with as least_with_of, closed_with as closed_with_of};

use crate::found::{Found, Stands};
use builtin_table::{Class, Table};
use std::cmp::Ordering;
use term_core::{Pi, Term};

// The least predicate outside, by name in bytes and then by arity.
pub(crate) fn least_outside<'a>(table: &Table, found: &'a [Found]) -> Option<&'a Pi>
    ensures { option_map (λ pi. pi.now) result ≡ least_of table.now found.now }
{
    let mut least: Option<&Pi> = None;
    for i in 0..found.len() {
        let item = &found[found.len() - 1 - i];
        least = least_with(table, item, least);
    }
    least
}

fn least_with<'a>(table: &Table, item: &'a Found, least: Option<&'a Pi>) -> Option<&'a Pi>
    ensures { option_map (λ p. p.now) result ≡ least_with_of table.now item.now (option_map (λ p. p.now) least.entry) }
{
    match item {
        Found::Place(_, _) => least,
        Found::Literal(pi) => {
            if is_outside(table, pi) {
                Some(lesser(pi, least))
            } else {
                least
            }
        }
    }
}

fn lesser<'a>(pi: &'a Pi, other: Option<&'a Pi>) -> &'a Pi
    ensures { result.now ≡ lesser_of pi.now (option_map (λ p. p.now) other.entry) }
{
    match other {
        Some(other) => { if is_before(other, pi) { other } else { pi } }
        None => pi,
    }
}

fn is_outside(table: &Table, pi: &Pi) -> bool
    ensures { result ≡ is_outside_predicate table.now pi.now }
{
    match table.row(pi) {
        None => false,
        Some(row) => row.class == Class::Outside,
    }
}

fn is_before(a: &Pi, b: &Pi) -> bool
    ensures { result ≡ is_less a.now b.now }
{
    a.name
        .as_str()
        .cmp(b.name.as_str())
        .then(a.arity.cmp(&b.arity))
        == Ordering::Less
}

// Whether a variable stands at a goal position.
pub(crate) fn has_unbound(found: &[Found]) -> bool
    ensures { result ≡ list_any is_unbound found.now }
{
    for item in found {
        if matches!(item, Found::Place(_, Stands::Unbound)) {
            return true;
        }
    }
    false
}

// A goal position that is no body, and the literal that holds it.
type Closed<'a> = (&'a Option<Pi>, &'a Term);

// The first goal position that is no body.
pub(crate) fn first_closed(found: &[Found]) -> Option<&Term>
    ensures { option_map (λ t. t.now) result ≡ option_map (λ c. c.1) (first_of found.now) }
{
    let mut first: Option<Closed> = None;
    for i in 0..found.len() {
        let item = &found[found.len() - 1 - i];
        first = closed_with(item, first);
    }
    match first {
        Some((_, term)) => Some(term),
        None => None,
    }
}

fn closed_with<'a>(item: &'a Found, first: Option<Closed<'a>>) -> Option<Closed<'a>>
    ensures { option_map (λ c. (c.0.now, c.1.now)) result ≡ closed_with_of item.now (option_map (λ c. (c.0.now, c.1.now)) first.entry) }
{
    match item {
        Found::Place(holder, Stands::Shut(term)) => Some(earlier((holder, term), first)),
        Found::Place(_, Stands::Opens | Stands::Unbound) | Found::Literal(_) => first,
    }
}

fn earlier<'a>(closed: Closed<'a>, other: Option<Closed<'a>>) -> Closed<'a>
    ensures { (result.0.now, result.1.now) ≡ earlier_of (closed.entry.0.now, closed.entry.1.now) (option_map (λ c. (c.0.now, c.1.now)) other.entry) }
{
    match other {
        Some(other) => {
            if is_holder_before(other.0, closed.0) {
                other
            } else {
                closed
            }
        }
        None => closed,
    }
}

fn is_holder_before(a: &Option<Pi>, b: &Option<Pi>) -> bool
    ensures { result ≡ is_holder_less a.now b.now }
{
    match (a, b) {
        (None, None) => false,
        (None, Some(_)) => true,
        (Some(_), None) => false,
        (Some(a), Some(b)) => is_before(a, b),
    }
}
