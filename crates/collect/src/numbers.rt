// Copies with new variables.
ghost use Rattle.std.specs.Prelude.{◌≡◌, ◌+◌, ◌<◌, ◌≤◌, IfOk, OnOk};
ghost use Rattle.builtin_table.specs.Solutions.{copies as copies_of, after_copies};
ghost use Rattle.store.specs.Cells.{Keeps};

use std::alloc::Global;
use store::{Seen, Store};
use term_core::{Memory, Term};

// Copies of these terms, whose variables take the store's next numbers, one term after the other.
#[tactic(auto, using(crate::proofs::Copying::copies_anywhere, crate::proofs::Copying::after_none, crate::proofs::Copying::after_from))]
pub(crate) fn renumbered(
    alloc: Global,
    store: &mut Store,
    terms: &[Term],
) -> Result<Vec<Term>, Memory>
    ensures copies { IfOk result (λ v. v.items ≡ copies_of store.old.next terms.now) }
    ensures next { OnOk result (store.new.next ≡ after_copies store.old.next terms.now) }
    ensures keeps { Keeps store.old store.new }
{
    let count = variable_count(terms)?;
    if count == 0 {
        let same = copies(alloc, terms, 0)?;
        return Ok(same);
    }
    let first = reserved(alloc, store, count)?;
    let renamed = copies(alloc, terms, first)?;
    Ok(renamed)
}

// How many numbers the copies take.
fn variable_count(terms: &[Term]) -> Result<u64, Memory>
    ensures { IfOk result (λ n. n ≡ after_copies 0 terms.now) }
{
    let mut count = 0_u64;
    for term in terms {
        count = count.checked_add(term.first_free()?).ok_or(Memory)?;
    }
    Ok(count)
}

// Copies of these terms from this number on.
fn copies(alloc: Global, terms: &[Term], first: u64) -> Result<Vec<Term>, Memory>
    ensures { IfOk result (λ v. v.items ≡ copies_of first terms.now) }
{
    let mut copies = Vec::new(alloc);
    let mut next = first;
    for term in terms {
        let after = next.checked_add(term.first_free()?).ok_or(Memory)?;
        copies.push(term.rename(alloc, next)?)?;
        next = after;
    }
    Ok(copies)
}

// Takes the store's next numbers, so many, and gives the first of them.
fn reserved(alloc: Global, store: &mut Store, count: u64) -> Result<u64, Memory>
    requires { 1 ≤ count }
    ensures first { IfOk result (λ n. n ≡ store.old.next) }
    ensures next { OnOk result (store.new.next ≡ store.old.next + count) }
    ensures keeps { Keeps store.old store.new }
{
    let first = new_number(store)?;
    let last = first.checked_add(count - 1).ok_or(Memory)?;
    store.put(&Term::var(alloc, last)?, 0)?;
    Ok(first)
}

// Takes the store's next number.
fn new_number(store: &mut Store) -> Result<u64, Memory>
    ensures number { IfOk result (λ n. n ≡ store.old.next) }
    ensures next { OnOk result (store.new.next ≡ store.old.next + 1) }
    ensures keeps { Keeps store.old store.new }
{
    let cell = store.new_var()?;
    match store.look(cell) {
        Seen::Var(number) => Ok(number),
        Seen::Int(_) | Seen::Atom(_) | Seen::Comp(_, _) => unreachable!(),
    }
}
