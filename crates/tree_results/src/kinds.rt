// The tests of a term's kind (ISO/IEC 13211-1, 8.3).
ghost use Rattle.std.specs.Prelude.{◌≡◌, ◌||◌};
ghost use Rattle.builtin_table.specs.Outcomes.{is_variable as is_variable_tree, is_integer as is_integer_tree, is_atom as is_atom_tree, is_compound as is_compound_tree};

use term_core::{Node, Term};

/// Whether the term is a variable.
pub fn is_variable(term: &Term) -> bool
    ensures { result ≡ is_variable_tree term.now }
{
    matches!(term.symbol(), Node::Var(_))
}

/// Whether the term is an integer.
pub fn is_integer(term: &Term) -> bool
    ensures { result ≡ is_integer_tree term.now }
{
    matches!(term.symbol(), Node::Int(_))
}

/// Whether the term is an atom.
pub fn is_atom(term: &Term) -> bool
    ensures { result ≡ is_atom_tree term.now }
{
    matches!(term.symbol(), Node::Atom(_))
}

/// Whether the term is a compound.
pub fn is_compound(term: &Term) -> bool
    ensures { result ≡ is_compound_tree term.now }
{
    matches!(term.symbol(), Node::Comp(_, _))
}

/// Whether one of the two is a variable.
pub fn is_either_variable(first: &Term, second: &Term) -> bool
    ensures { result ≡ (is_variable_tree first.now || is_variable_tree second.now) }
{
    is_variable(first) || is_variable(second)
}
