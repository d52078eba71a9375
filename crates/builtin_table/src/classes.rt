ghost use Rattle.std.specs.Prelude.{◌≡◌, cond};
ghost use Rattle.builtin_table.specs.Outside.{outside_in};
ghost use Rattle.builtin_table.specs.Table.{standard, plus_and_divmod, rows_of, rows_of_app, class_of, is_talk as is_talk_of};
ghost use Rattle.builtin_table.specs.Taken.{takes as takes_of};
ghost use Rattle.builtin_table.specs.declared.row.Class.TheVariants.{Outside as OutsideClass};

use crate::row::Class;
use crate::standard::{PLUS_AND_DIVMOD, STANDARD};
use term_core::{App, Pi};

/// The class of a predicate's row in the table of an application; none where that has no row of it.
pub fn class_in(app: App, pi: &Pi) -> Option<Class>
    ensures { result ≡ class_of (rows_of_app app) pi.now }
{
    match app {
        App::Sandbox => standard_class(pi),
        App::School => {
            let class = standard_class(pi)?;
            Some(class_in_school(pi, class))
        }
        App::Numbers => match standard_class(pi) {
            Some(class) => Some(class),
            None => class_among(&PLUS_AND_DIVMOD, pi),
        },
    }
}

/// Whether a predicate would reach outside of a run in this application: its row there is of the class `Outside`.
#[tactic(auto, unfolding(crate::specs::Outside::outside_in))]
pub fn reaches_outside(app: App, pi: &Pi) -> bool
    ensures { result ≡ outside_in app pi.now }
{
    match class_in(app, pi) {
        Some(class) => class == Class::Outside,
        None => false,
    }
}

/// Whether a run in this application takes a primitive of this indicator: its row there is of the class `Control`, `Safe` or `Meta`.
#[tactic(auto, unfolding(crate::specs::Taken::takes))]
pub fn takes(app: App, pi: &Pi) -> bool
    ensures { result ≡ takes_of app pi.now }
{
    match class_in(app, pi) {
        Some(Class::Control | Class::Safe | Class::Meta) => true,
        Some(Class::Library | Class::Outside) | None => false,
    }
}

#[tactic(auto, unfolding(crate::specs::Table::standard))]
fn standard_class(pi: &Pi) -> Option<Class>
    ensures { result ≡ class_of standard pi.now }
{
    class_among(&STANDARD, pi)
}

// The class of the first of these rows with the indicator.
fn class_among(rows: &[(&str, u32, Class, [i8; 8])], pi: &Pi) -> Option<Class>
    ensures { result ≡ class_of (rows_of rows.now) pi.now }
{
    for (name, arity, class, _) in rows {
        if *name == pi.name.as_str() && *arity == pi.arity {
            return Some(*class);
        }
    }
    None
}

// What a predicate's class becomes where no program talks with its client.
pub(crate) fn class_in_school(pi: &Pi, class: Class) -> Class
    ensures { result ≡ cond (is_talk_of pi.now) OutsideClass class }
{
    if is_talk(pi) { Class::Outside } else { class }
}

// Whether this is pengine_output/1 or pengine_input/2.
fn is_talk(pi: &Pi) -> bool
    ensures { result ≡ is_talk_of pi.now }
{
    let name = pi.name.as_str();
    (name == "pengine_output" && pi.arity == 1) || (name == "pengine_input" && pi.arity == 2)
}
