ghost use Rattle.std.specs.Prelude.{◌≡◌};
ghost use Rattle.prims_list.specs.Rows.{is_row as is_row_of, is_pair_name as is_pair_name_of};

use term_core::Pi;

/// Whether an indicator is that of a primitive of this crate.
pub fn is_row(pi: &Pi) -> bool
    ensures { result ≡ is_row_of pi.now.name pi.now.arity }
{
    match pi.arity {
        2 => is_pair_name(pi.name.as_str()),
        3 => pi.name.as_str() == "$skip_list",
        _ => false,
    }
}

fn is_pair_name(name: &str) -> bool
    ensures { result ≡ is_pair_name_of name.now }
{
    matches!(name, "msort" | "sort" | "keysort")
}
