ghost use Rattle.std.specs.Prelude.{◌≡◌};
ghost use Rattle.prims_term.specs.Rows.{is_row as is_row_of, is_kind_name as is_kind_name_of, is_two_name as is_two_name_of, is_triple_name as is_triple_name_of, is_quadruple_name as is_quadruple_name_of};

use builtin_table::Relation;
use term_core::Pi;

/// Whether an indicator is that of a primitive of this crate: the tests of a term's kind, `=/2`,
/// `unify_with_occurs_check/2`, the comparisons of terms and of values, `compare/3`, `functor/3`,
/// `arg/3`, `=../2`, `copy_term/2`, `term_variables/2`, `is/2`, `plus/3` and `divmod/4`.
pub fn is_row(pi: &Pi) -> bool
    ensures { result ≡ is_row_of pi.now.name pi.now.arity }
{
    match pi.arity {
        1 => is_kind_name(pi.name.as_str()),
        2 => is_two_name(pi.name.as_str()),
        3 => is_triple_name(pi.name.as_str()),
        4 => is_quadruple_name(pi.name.as_str()),
        _ => false,
    }
}

fn is_kind_name(name: &str) -> bool
    ensures { result ≡ is_kind_name_of name.now }
{
    matches!(
        name,
        "var"
            | "nonvar"
            | "atom"
            | "integer"
            | "number"
            | "atomic"
            | "compound"
            | "callable"
            | "is_list"
            | "ground"
    )
}

fn is_two_name(name: &str) -> bool
    ensures { result ≡ is_two_name_of name.now }
{
    if Relation::of_order(name).is_some() || Relation::of_values(name).is_some() {
        return true;
    }
    matches!(
        name,
        "=" | "unify_with_occurs_check" | "is" | "=.." | "copy_term" | "term_variables"
    )
}

fn is_triple_name(name: &str) -> bool
    ensures { result ≡ is_triple_name_of name.now }
{
    matches!(name, "functor" | "arg" | "compare" | "plus")
}

fn is_quadruple_name(name: &str) -> bool
    ensures { result ≡ is_quadruple_name_of name.now }
{
    name == "divmod"
}
