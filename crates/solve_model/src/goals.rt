// How a goal is read: what its step is.
ghost use Rattle.std.specs.Prelude.{◌≡◌, [], ◌∷◌, length, false, IfOk};
ghost use Rattle.term_core.specs.Tree.{Tree, atom, compound, trees_of};
ghost use Rattle.term_core.specs.Parts.{symbol_of, arguments_of};
ghost use Rattle.builtin_table.specs.Outside.{outside_in};
ghost use Rattle.builtin_table.specs.Errors.{one_argument as one_argument_of, two_arguments as two_arguments_of};
ghost use Rattle.solve_model.specs.Goals.{arrow, counterexample as counterexample_tree, disjunction as disjunction_row, indicator_of, settled, talks as talks_row, row_of, row_of_atom as row_of_name, row_of_one as row_of_one_tree, row_of_two as row_of_two_trees, row_of_three as row_of_three_trees, true_goal, fail_goal};
ghost use Rattle.solve_model.specs.Rows.{is_arrow_symbol, is_call_of, row_as};

use crate::arguments::{first_and_others, one_argument, three_arguments, two_arguments};
use builtin_table::reaches_outside;
use program::Program;
use std::alloc::Global;
use term_core::{Memory, Name, Node, Pi, Term};

// The row of a goal in the table of steps.
#[derive(Drop)]
pub(crate) enum Row {
    Succeeds,
    Fails,
    Cuts,
    Both(Term, Term),
    Either(Term, Term),
    IfElse(Term, Term, Term),
    Test(Term, Term, Term),
    Differ(Term, Term),
    Call(Term, Vec<Term>),
    Catch(Term, Term, Term),
    Throw(Term),
    Output(Term),
    Input(Term, Term),
    FindAll(Term, Term, Term),
    BagOf(Term, Term, Term),
    SetOf(Term, Term, Term),
    Predicate,
}

// The row of a goal of a program: one that would talk where its application says that this reaches outside is a call.
pub(crate) fn row_in(alloc: Global, program: &Program, goal: &Term) -> Result<Row, Memory>
    ensures { IfOk result (λ row. row_as goal.now row ≡ settled (outside_in program.now.app) goal.now (row_of goal.now)) }
{
    let row = row_of_goal(alloc, goal)?;
    if !talks(&row) {
        return Ok(row);
    }
    let pi = indicator(alloc, goal)?;
    if reaches_outside(program.app(), &pi) {
        Ok(Row::Predicate)
    } else {
        Ok(row)
    }
}

fn talks(row: &Row) -> bool
    ensures { (goal : Tree) → result ≡ talks_row (row_as goal row.now) }
{
    matches!(row, Row::Output(_) | Row::Input(_, _))
}

// The row of a goal in the table of steps.
fn row_of_goal(alloc: Global, goal: &Term) -> Result<Row, Memory>
    ensures { IfOk result (λ row. row_as goal.now row ≡ row_of goal.now) }
{
    match goal.symbol() {
        Node::Var(_) | Node::Int(_) => Ok(Row::Call(goal.copied(alloc)?, Vec::new(alloc))),
        Node::Atom(name) => Ok(row_of_atom(name.as_str())),
        Node::Comp(name, count) => {
            if is_call(name.as_str(), *count) {
                let (called, added) = first_and_others(alloc, goal)?;
                Ok(Row::Call(called, added))
            } else {
                let row = row_of_compound(alloc, name.as_str(), *count, goal)?;
                Ok(row)
            }
        }
    }
}

// Whether this is call/1 to call/8.
fn is_call(name: &str, count: u32) -> bool
    ensures { result ≡ is_call_of name.now count }
{
    count >= 1 && count <= 8 && name == "call"
}

fn row_of_atom(name: &str) -> Row
    ensures { row_as (atom name.now) result ≡ row_of_name name.now }
{
    match name {
        "true" => Row::Succeeds,
        "fail" | "false" => Row::Fails,
        "!" => Row::Cuts,
        _ => Row::Predicate,
    }
}

// The row of a compound that is no call/1 to call/8.
fn row_of_compound(alloc: Global, name: &str, count: u32, goal: &Term) -> Result<Row, Memory>
    requires symbol { symbol_of goal.now ≡ Node.Comp name.now count }
    requires no_call { is_call_of name.now count ≡ false }
    ensures { IfOk result (λ row. row_as goal.now row ≡ row_of goal.now) }
{
    match count {
        1 => {
            let row = row_of_one(alloc, name, goal)?;
            Ok(row)
        }
        2 => {
            let row = row_of_two(alloc, name, goal)?;
            Ok(row)
        }
        3 => {
            let row = row_of_three(alloc, name, goal)?;
            Ok(row)
        }
        _ => Ok(Row::Predicate),
    }
}

fn row_of_one(alloc: Global, name: &str, goal: &Term) -> Result<Row, Memory>
    requires { length (arguments_of goal.now) ≡ 1 }
    ensures { IfOk result (λ row. (a : Tree) → goal.now ≡ one_argument_of name.now a → row_as goal.now row ≡ row_of_one_tree name.now a) }
{
    match name {
        "\\+" => {
            let condition = one_argument(alloc, goal)?;
            Ok(Row::Test(condition, fails(alloc)?, succeeds(alloc)?))
        }
        "once" => {
            let condition = one_argument(alloc, goal)?;
            Ok(Row::Test(condition, succeeds(alloc)?, fails(alloc)?))
        }
        "ignore" => {
            let condition = one_argument(alloc, goal)?;
            Ok(Row::Test(condition, succeeds(alloc)?, succeeds(alloc)?))
        }
        "throw" => Ok(Row::Throw(one_argument(alloc, goal)?)),
        "pengine_output" => Ok(Row::Output(one_argument(alloc, goal)?)),
        _ => Ok(Row::Predicate),
    }
}

fn row_of_two(alloc: Global, name: &str, goal: &Term) -> Result<Row, Memory>
    requires { length (arguments_of goal.now) ≡ 2 }
    ensures { IfOk result (λ row. (a b : Tree) → goal.now ≡ two_arguments_of name.now a b → row_as goal.now row ≡ row_of_two_trees name.now a b) }
{
    match name {
        "," => {
            let (first, second) = two_arguments(alloc, goal)?;
            Ok(Row::Both(first, second))
        }
        ";" => {
            let (first, second) = two_arguments(alloc, goal)?;
            let row = disjunction(alloc, first, second)?;
            Ok(row)
        }
        "->" => {
            let (condition, then) = two_arguments(alloc, goal)?;
            Ok(Row::IfElse(condition, then, fails(alloc)?))
        }
        "\\=" => {
            let (first, second) = two_arguments(alloc, goal)?;
            Ok(Row::Differ(first, second))
        }
        "forall" => {
            let (condition, action) = two_arguments(alloc, goal)?;
            let condition = counterexample(alloc, condition, action)?;
            Ok(Row::Test(condition, fails(alloc)?, succeeds(alloc)?))
        }
        "pengine_input" => {
            let (prompt, term) = two_arguments(alloc, goal)?;
            Ok(Row::Input(prompt, term))
        }
        _ => Ok(Row::Predicate),
    }
}

fn row_of_three(alloc: Global, name: &str, goal: &Term) -> Result<Row, Memory>
    requires { length (arguments_of goal.now) ≡ 3 }
    ensures { IfOk result (λ row. (a b c : Tree) → goal.now ≡ compound name.now (trees_of (a ∷ b ∷ c ∷ [])) → row_as goal.now row ≡ row_of_three_trees name.now a b c) }
{
    match name {
        "catch" => {
            let (goal, catching, recovery) = three_arguments(alloc, goal)?;
            Ok(Row::Catch(goal, catching, recovery))
        }
        "findall" => {
            let (template, goal, list) = three_arguments(alloc, goal)?;
            Ok(Row::FindAll(template, goal, list))
        }
        "bagof" => {
            let (template, goal, list) = three_arguments(alloc, goal)?;
            Ok(Row::BagOf(template, goal, list))
        }
        "setof" => {
            let (template, goal, list) = three_arguments(alloc, goal)?;
            Ok(Row::SetOf(template, goal, list))
        }
        _ => Ok(Row::Predicate),
    }
}

// `A ; B`, or `C -> T ; B` where the first is an arrow.
fn disjunction(alloc: Global, first: Term, second: Term) -> Result<Row, Memory>
    ensures { IfOk result (λ row. (goal : Tree) → row_as goal row ≡ disjunction_row (arrow first) first second) }
{
    if is_arrow(&first) {
        let (condition, then) = two_arguments(alloc, &first)?;
        Ok(Row::IfElse(condition, then, second))
    } else {
        Ok(Row::Either(first, second))
    }
}

fn is_arrow(term: &Term) -> bool
    ensures { result ≡ is_arrow_symbol (symbol_of term.now) }
{
    match term.symbol() {
        Node::Comp(name, count) => *count == 2 && name.as_str() == "->",
        Node::Var(_) | Node::Int(_) | Node::Atom(_) => false,
    }
}

// What succeeds where an action fails after a condition: `C, \+ A`.
fn counterexample(alloc: Global, condition: Term, action: Term) -> Result<Term, Memory>
    ensures { IfOk result (λ t. t ≡ counterexample_tree condition action) }
{
    let not_action = Term::comp(alloc, "\\+", &vec![in alloc; action]?)?;
    Term::comp(alloc, ",", &vec![in alloc; condition, not_action]?)
}

fn succeeds(alloc: Global) -> Result<Term, Memory>
    ensures { IfOk result (λ t. t ≡ true_goal) }
{
    Term::atom(alloc, "true")
}

fn fails(alloc: Global) -> Result<Term, Memory>
    ensures { IfOk result (λ t. t ≡ fail_goal) }
{
    Term::atom(alloc, "fail")
}

// The indicator of the predicate that a goal calls.
pub(crate) fn indicator(alloc: Global, goal: &Term) -> Result<Pi, Memory>
    ensures { IfOk result (λ pi. pi ≡ indicator_of goal.now) }
{
    match goal.symbol() {
        Node::Atom(name) => Ok(Pi {
            name: name.copied(alloc)?,
            arity: 0,
        }),
        Node::Comp(name, count) => Ok(Pi {
            name: name.copied(alloc)?,
            arity: *count,
        }),
        Node::Var(_) | Node::Int(_) => Ok(Pi {
            name: Name::new(alloc, "")?,
            arity: 0,
        }),
    }
}
