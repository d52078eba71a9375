// Tables of terms and of cells: unification, copies, expressions, the primitives and bags of solutions.
ghost use Rattle.std.specs.Prelude.{◌≡◌, length, true, IfOk};
ghost use Rattle.std.specs.List.{All};
ghost use Rattle.term_core.specs.Parts.{arguments_of};
ghost use Rattle.store.specs.Cells.{IsCell, tree_of};
ghost use Rattle.prims_term.specs.Rows.{is_row};

use crate::row::{Row, number};
use crate::stop::Stop;
use crate::terms::{argument, shown, term};
use arith::{Value, eval};
use collect::{Bag, BagKind};
use prolog_write::Mode;
use std::alloc::Global;
use store::{Cell, Offer, Seen, Store, Taken};
use term_core::{Pi, Subst, Term, unify};
use tree_offers::{Offers, Outcome};

/// A term's depth, its first free variable, its variables, and the term with its variables numbered anew.
pub(crate) fn measures_of(alloc: Global, field: &str) -> Result<String, Stop> {
    let term = term(alloc, field)?;
    let variables = term.variables(alloc)?;
    let numbered = shown(alloc, &term.numbered(alloc)?, Mode::Canonical)?;
    let free = term.first_free()?;
    Ok(format!(in alloc; "{}\t{free}\t{variables:?}\t{numbered}", term.depth())?)
}

/// The term that unifies two terms.
pub(crate) fn unified_of(alloc: Global, row: &Row) -> Result<String, Stop> {
    let left = term(alloc, row.field(0))?;
    let pairs = vec![in alloc; (left.copied(alloc)?, term(alloc, row.field(1))?)]?;
    let Some(found) = unify(alloc, &pairs, &Subst::new(alloc))? else {
        return Ok(String::from_str(alloc, "no")?);
    };
    let made = left.apply(alloc, &found)?;
    if term(alloc, row.field(1))?.apply(alloc, &found)? != made {
        return Err(Stop::Malformed);
    }
    shown(alloc, &made, Mode::Canonical)
}

/// The text of a cell's term of so many nodes at most.
fn cell_text(alloc: Global, store: &Store, cell: Cell, most: u64) -> Result<String, Stop>
    requires { IsCell store.now cell }
{
    match store.take(cell, most)? {
        Taken::Term(term) => argument(alloc, &term),
        Taken::TooLong => Ok(String::from_str(alloc, "too long")?),
    }
}

/// A term that is put into a store with a number added to its variables, its copy, and the next variable.
pub(crate) fn stored_of(alloc: Global, row: &Row) -> Result<String, Stop> {
    let most = number(row.field(2))?;
    let mut store = Store::new(alloc);
    let cell = store.put(&term(alloc, row.field(0))?, number(row.field(1))?)?;
    let copy = store.copy(cell)?;
    let next = store.new_var()?;
    let cell = cell_text(alloc, &store, cell, most)?;
    let copy = cell_text(alloc, &store, copy, most)?;
    let next = cell_text(alloc, &store, next, most)?;
    Ok(format!(in alloc; "{cell}\t{copy}\t{next}")?)
}

/// The value of an expression, or what is wrong with it.
pub(crate) fn value_of(alloc: Global, field: &str) -> Result<String, Stop> {
    let mut store = Store::new(alloc);
    let cell = store.put(&term(alloc, field)?, 0)?;
    match eval(alloc, &store, cell)? {
        Value::Int(value) => Ok(format!(in alloc; "{value}")?),
        Value::Ball(ball) => argument(alloc, &ball),
    }
}

fn argument_count(store: &Store, c: Cell) -> u32
    requires { IsCell store.now c }
    ensures { result ≡ length (arguments_of (tree_of store.now c)) }
{
    match store.look(c) {
        Seen::Comp(_, count) => count,
        _ => 0,
    }
}

fn arguments(alloc: Global, store: &Store, c: Cell) -> Result<Vec<Cell>, Stop>
    requires { IsCell store.now c }
    ensures { IfOk result (λ v. All (IsCell store.now) v.items) }
{
    let mut cells = Vec::new(alloc);
    for i in 0..argument_count(store, c) {
        cells.push(store.arg(c, i))?;
    }
    Ok(cells)
}

/// A goal's indicator, and cells for its arguments.
fn goal(alloc: Global, store: &mut Store, field: &str) -> Result<(Pi, Vec<Cell>), Stop>
    ensures { IfOk result (λ g. All (IsCell store.new) g.1.items) }
{
    let cell = store.put(&term(alloc, field)?, 0)?;
    let args = arguments(alloc, store, cell)?;
    match store.look(cell) {
        Seen::Comp(name, arity) => {
            let name = name.copied(alloc)?;
            Ok((Pi { name, arity }, args))
        }
        _ => Err(Stop::Malformed),
    }
}

/// Adds `left = right` to a result.
fn push_pair(result_text: &mut String, left: &str, right: &str) -> Result<(), Stop> {
    if !result_text.is_empty() {
        result_text.push_str(", ")?;
    }
    write!(result_text, "{left} = {right}")?;
    Ok(())
}

/// Adds a result to the others.
fn push_result(all: &mut String, text: &str) -> Result<(), Stop> {
    if !all.is_empty() {
        all.push_str("; ")?;
    }
    all.push_str(if text.is_empty() { "yes" } else { text })?;
    Ok(())
}

/// All results, or word that there is none.
fn results(alloc: Global, all: String) -> Result<String, Stop> {
    if all.is_empty() {
        return Ok(String::from_str(alloc, "no")?);
    }
    Ok(all)
}

/// Adds a result: its pairs, by the texts of the places.
fn push_offer(
    alloc: Global,
    all: &mut String,
    store: &Store,
    places: &[String],
    offer: &Offer,
) -> Result<(), Stop>
    requires { All (λ p. IsCell store.now p.1) offer.now.pairs }
{
    let mut text = String::new(alloc);
    for pair in offer.pairs.as_slice() {
        let right = cell_text(alloc, store, pair.1, 1000)?;
        let place = places.get(pair.0 as usize).ok_or(Stop::Malformed)?;
        push_pair(&mut text, place.as_str(), &right)?;
    }
    push_result(all, &text)
}

/// The results of a primitive on texts or lists, or of a bag.
fn offers_text(
    alloc: Global,
    store: &mut Store,
    places: &[String],
    mut offers: Offers,
) -> Result<String, Stop> {
    let mut all = String::new(alloc);
    for _ in 0..u64::MAX {
        match offers.next(store)? {
            Some(offer) => push_offer(alloc, &mut all, store, places, &offer)?,
            None => break,
        }
    }
    results(alloc, all)
}

fn ball_text(alloc: Global, ball: &Term) -> Result<String, Stop> {
    let ball = argument(alloc, ball)?;
    Ok(format!(in alloc; "throws {ball}")?)
}

/// What a primitive on terms gives.
fn by_terms(
    alloc: Global,
    store: &mut Store,
    pi: &Pi,
    args: &[Cell],
    places: &[String],
) -> Result<String, Stop>
    requires cells { All (IsCell store.old) args.now }
    requires row { is_row pi.now.name pi.now.arity ≡ true }
    requires count { length args.now ≡ pi.now.arity }
{
    match prims_term::call(alloc, store, pi, args)? {
        prims_term::Outcome::Ball(ball) => ball_text(alloc, &ball),
        prims_term::Outcome::Offers(mut offers) => {
            let mut all = String::new(alloc);
            if let Some(offer) = offers.next(store)? {
                push_offer(alloc, &mut all, store, places, &offer)?;
            }
            results(alloc, all)
        }
    }
}

/// What a goal gives over cells.
fn over_cells(
    alloc: Global,
    store: &mut Store,
    pi: &Pi,
    args: &[Cell],
    places: &[String],
) -> Result<String, Stop>
    requires { All (IsCell store.old) args.now }
{
    if args.len() as u64 != u64::from(pi.arity) {
        return Err(Stop::Malformed);
    }
    if prims_term::is_row(pi) {
        return by_terms(alloc, store, pi, args, places);
    }
    let outcome = if prims_text::is_row(pi) {
        prims_text::call(alloc, store, pi, args)?
    } else if prims_list::is_row(pi) {
        prims_list::call(alloc, store, pi, args)?
    } else {
        return Ok(String::from_str(alloc, "other")?);
    };
    match outcome {
        Outcome::Offers(offers) => offers_text(alloc, store, places, offers),
        Outcome::Ball(ball) => ball_text(alloc, &ball),
    }
}

/// The terms of cells.
fn taken(alloc: Global, store: &Store, cells: &[Cell]) -> Result<Vec<Term>, Stop>
    requires { All (IsCell store.now) cells.now }
{
    let mut terms = Vec::new(alloc);
    for cell in cells {
        let Taken::Term(term) = store.take(*cell, 1000)? else {
            return Err(Stop::Malformed);
        };
        terms.push(term)?;
    }
    Ok(terms)
}

/// What a goal gives over terms.
fn over_terms(alloc: Global, name: &str, args: &[Term], next: u64) -> Result<String, Stop> {
    let mut offers = match prims_tree::call(alloc, name, args, next)? {
        prims_tree::Outcome::Offers(offers) => offers,
        prims_tree::Outcome::Ball(ball) => return ball_text(alloc, &ball),
        prims_tree::Outcome::Unknown => return Ok(String::from_str(alloc, "other")?),
    };
    let mut all = String::new(alloc);
    for _ in 0..u64::MAX {
        let Some(offer) = offers.next(alloc)? else {
            break;
        };
        push_terms(alloc, &mut all, offer.pairs.as_slice())?;
    }
    results(alloc, all)
}

/// Adds a result over terms.
fn push_terms(alloc: Global, all: &mut String, pairs: &[(Term, Term)]) -> Result<(), Stop> {
    let mut text = String::new(alloc);
    for (left, right) in pairs {
        push_pair(&mut text, &argument(alloc, left)?, &argument(alloc, right)?)?;
    }
    push_result(all, &text)
}

/// What a primitive gives over terms and over cells, which is the same.
pub(crate) fn primitive_of(alloc: Global, field: &str) -> Result<String, Stop> {
    let next = term(alloc, field)?.first_free()?;
    let mut store = Store::new(alloc);
    let (pi, args) = goal(alloc, &mut store, field)?;
    let terms = taken(alloc, &store, &args)?;
    let mut places = Vec::new(alloc);
    for term in &terms {
        places.push(argument(alloc, term)?)?;
    }
    let cells = over_cells(alloc, &mut store, &pi, &args, &places)?;
    let trees = over_terms(alloc, pi.name.as_str(), &terms, next)?;
    if trees.as_str() == cells.as_str() {
        return Ok(cells);
    }
    Ok(format!(in alloc; "{cells} and over terms {trees}")?)
}

fn bag_kind(name: &str) -> BagKind {
    match name {
        "bagof" => BagKind::Bagof { witness: 1 },
        "setof" => BagKind::Setof { witness: 1 },
        _ => BagKind::Findall,
    }
}

/// The results of a bag of solutions, `Witness-Term` for bagof and setof of one free variable.
pub(crate) fn bag_of(alloc: Global, row: &Row) -> Result<String, Stop> {
    let mut store = Store::new(alloc);
    let mut bag = Bag::new(alloc, bag_kind(row.field(0)));
    for solution in row.field(1).split("; ").filter(|text| !text.is_empty()) {
        let cell = store.put(&term(alloc, solution)?, 0)?;
        bag.add(&store, cell)?;
    }
    let places = vec![in alloc;
        String::from_str(alloc, "Witness")?,
        String::from_str(alloc, "List")?,
    ]?;
    let offers = bag.finish(&mut store)?;
    offers_text(alloc, &mut store, &places, offers)
}
