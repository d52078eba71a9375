ghost use Rattle.std.specs.Prelude.{◌≡◌, ◌∷◌, ◌+◌, ◌-◌, [], true, length, map, IfOk, OnOk, OnErr, MatchOption};
ghost use Rattle.std.specs.List.{All};
ghost use Rattle.builtin_table.specs.Primitives.{primitive};
ghost use Rattle.store.specs.Cells.{IsCell, tree_of, Keeps, Makes};
ghost use Rattle.prims_term.specs.Outcomes.{outcome_of, fresh_of, HasCells};
ghost use Rattle.prims_term.specs.Plans.{plan_outcome, IsPlan, symbol_tree};
ghost use Rattle.prims_term.specs.Rows.{is_row};

use crate::by_name::planned;
use crate::make::{argument_count, make};
use crate::plan::Plan;
use std::alloc::Global;
use std::marker::Model;
use store::{Cell, Offer, Seen, Store};
use term_core::{List, Memory, Pi, Term};

/// What a primitive gives.
#[derive(Debug, Drop)]
pub enum Outcome {
    /// Its results.
    Offers(Offers),
    /// An error term.
    Ball(Term),
}

/// The results that a primitive has left, which contracts see as the list of their pairs.
#[derive(Debug, Drop)]
pub struct Offers {
    left: Option<Offer>,
}

impl Model for Offers {
    ghost use Rattle.std.specs.Prelude.{ℕ, List as list};

    ghost Value = { list (list (ℕ × ℕ)) };

    ghost use Rattle.prims_term.specs.Left.{offers_of};

    ghost view = { λ o. offers_of o.left };
}

impl Offers {
    fn none() -> Offers
        ensures { result ≡ [] }
    {
        Offers { left: None }
    }

    fn one(pairs: List<(u32, Cell)>) -> Offers
        ensures { result ≡ pairs ∷ [] }
    {
        Offers {
            left: Some(Offer { pairs }),
        }
    }

    /// Takes the next result; `None` exactly where none is left. The store stays as it is, and the pairs mean
    /// what they did after the call as long as the cells that it had then stand for the same terms.
    pub fn next(&mut self, _store: &mut Store) -> Result<Option<Offer>, Memory>
        ensures offer { IfOk result (λ o. MatchOption o (self.old ≡ []) (λ offer. self.old ≡ offer.pairs ∷ self.new)) }
        ensures none { self.old ≡ [] → self.new ≡ [] }
        ensures store { _store.new ≡ _store.old }
        ensures err { OnErr result (self.new ≡ self.old) }
    {
        Ok(self.left.take())
    }
}

/// What the primitive of this indicator, one of `is_row`, gives for as many arguments.
///
/// The results have an argument's place and a cell in each pair; they are those of the definition over the
/// terms that the cells stand for, in order. Their cells and new variables, numbered from the store's
/// next, are made by this call. `Memory` leaves each cell as it was; it also comes where a term that is
/// compared, copied or put into an error has more than `term_core::MAX_NODES` nodes.
pub fn call(alloc: Global, store: &mut Store, pi: &Pi, args: &[Cell]) -> Result<Outcome, Memory>
    requires cells { All (IsCell store.old) args.now }
    requires row { is_row pi.now.name pi.now.arity ≡ true }
    requires count { length args.now ≡ pi.now.arity }
    ensures outcome { IfOk result (λ o. outcome_of store.new args.now (store.new.next - store.old.next) o
        ≡ primitive pi.now.name (map (tree_of store.old) args.now) store.old.next) }
    ensures next { OnOk result (store.new.next
        ≡ store.old.next + fresh_of (primitive pi.now.name (map (tree_of store.old) args.now) store.old.next)) }
    ensures cells { IfOk result (HasCells store.new args.now) }
    ensures keeps { Keeps store.old store.new }
{
    let plan = planned(alloc, store, pi.name.as_str(), args)?;
    carry_out(alloc, store, args, plan)
}

// Makes the cells that a plan asks for.
fn carry_out(alloc: Global, store: &mut Store, args: &[Cell], plan: Plan) -> Result<Outcome, Memory>
    requires cells { All (IsCell store.old) args.now }
    requires plan { IsPlan store.old args.now plan }
    ensures outcome { IfOk result (λ o. outcome_of store.new args.now (store.new.next - store.old.next) o
        ≡ plan_outcome store.old args.now plan) }
    ensures next { OnOk result (store.new.next ≡ store.old.next + fresh_of (plan_outcome store.old args.now plan)) }
    ensures cells { IfOk result (HasCells store.new args.now) }
    ensures keeps { Keeps store.old store.new }
{
    match plan {
        Plan::Fails => Ok(Outcome::Offers(Offers::none())),
        Plan::Passes => Ok(Outcome::Offers(Offers::one(List::new(alloc)))),
        Plan::Equal(place, what) => {
            let cell = make(alloc, store, what)?;
            let pairs = List::from_vec(vec![in alloc; (place, cell)]?);
            Ok(Outcome::Offers(Offers::one(pairs)))
        }
        Plan::Symbol(c) => symbol(alloc, store, args, c),
        Plan::Divided(quotient, left) => divided(alloc, store, args, quotient, left),
        Plan::Ball(ball) => Ok(Outcome::Ball(ball)),
    }
}

// The name and the arity of a cell's term for the second and the third argument.
fn symbol(alloc: Global, store: &mut Store, args: &[Cell], c: Cell) -> Result<Outcome, Memory>
    requires cells { All (IsCell store.old) args.now }
    requires plan { IsPlan store.old args.now (Plan.Symbol c) }
    ensures outcome { IfOk result (λ o. outcome_of store.new args.now (store.new.next - store.old.next) o
        ≡ plan_outcome store.old args.now (Plan.Symbol c)) }
    ensures next { OnOk result (store.new.next ≡ store.old.next) }
    ensures cells { IfOk result (HasCells store.new args.now) }
    ensures keeps { Keeps store.old store.new }
{
    let count = argument_count(store, c);
    let name = symbol_name(alloc, store, c)?;
    let arity = store.int(i128::from(count))?;
    let pairs = List::from_vec(vec![in alloc; (1, name), (2, arity)]?);
    Ok(Outcome::Offers(Offers::one(pairs)))
}

// These integers for the third and the fourth argument.
fn divided(
    alloc: Global,
    store: &mut Store,
    args: &[Cell],
    quotient: i128,
    left: i128,
) -> Result<Outcome, Memory>
    requires cells { All (IsCell store.old) args.now }
    requires plan { IsPlan store.old args.now (Plan.Divided quotient left) }
    ensures outcome { IfOk result (λ o. outcome_of store.new args.now (store.new.next - store.old.next) o
        ≡ plan_outcome store.old args.now (Plan.Divided quotient left)) }
    ensures next { OnOk result (store.new.next ≡ store.old.next) }
    ensures cells { IfOk result (HasCells store.new args.now) }
    ensures keeps { Keeps store.old store.new }
{
    let quotient = store.int(quotient)?;
    let left = store.int(left)?;
    let pairs = List::from_vec(vec![in alloc; (2, quotient), (3, left)]?);
    Ok(Outcome::Offers(Offers::one(pairs)))
}

// A cell for the name of a compound, or the term's own.
fn symbol_name(alloc: Global, store: &mut Store, c: Cell) -> Result<Cell, Memory>
    requires { IsCell store.old c }
    ensures ok { IfOk result (λ d. Makes store.old store.new d (symbol_tree (tree_of store.old c))) }
    ensures next { store.new.next ≡ store.old.next }
    ensures err { OnErr result (Keeps store.old store.new) }
{
    let name = match store.look(c) {
        Seen::Comp(name, _) => name.copied(alloc)?,
        Seen::Var(_) | Seen::Int(_) | Seen::Atom(_) => return Ok(c),
    };
    store.atom(name.as_str())
}
