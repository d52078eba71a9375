ghost use Rattle.std.specs.Prelude.{◌≡◌};
ghost use Rattle.prolog_write.specs.Text.{form, is_operator};

use crate::mode::Mode;
use op_table::{Op, iso_infix, iso_prefix};

/// How a compound is written, as the definition of a text has it.
#[derive(Clone, Copy, Debug, Drop)]
pub enum Form {
    /// `{a}`
    Curly,
    /// `[a|b]`
    Cell,
    /// `- a`
    Prefix(Op),
    /// `a-b`
    Infix(Op),
    /// `f(a,b)`
    Call,
}

// How a compound of this name and so many arguments is written.
#[tactic(auto, unfolding(crate::specs::Text::form))]
pub(crate) fn form_of(mode: Mode, name: &str, count: u32) -> Form
    ensures { result ≡ form mode name.now count }
{
    match (name, count) {
        ("{}", 1) => Form::Curly,
        (".", 2) => Form::Cell,
        _ if mode == Mode::Canonical => Form::Call,
        (_, 1) => iso_prefix(name).map_or(Form::Call, Form::Prefix),
        (_, 2) => iso_infix(name).map_or(Form::Call, Form::Infix),
        _ => Form::Call,
    }
}

// Whether an atom of this name is an operator.
#[tactic(auto, unfolding(crate::specs::Text::is_operator))]
pub(crate) fn is_operator(name: &str) -> bool
    ensures { result ≡ is_operator name.now }
{
    iso_prefix(name).is_some() || iso_infix(name).is_some()
}
