// The options of `ask` and `create`.
ghost use Rattle.std.specs.Prelude.{◌≡◌, ◌≤◌, IfOk, IfSome};
ghost use Rattle.std.specs.List.{list_all};
ghost use Rattle.request_text.specs.Options.{value_of, given_for, with_value, term_or, number_or, flag_or, is_ask_option, ask_of, ask_with, is_create_option, settings_of, created};

use crate::limits::{default_settings, greatest_limit};
use crate::shapes::{elements, flag_of, is_compound, number_up_to};
use event_core::{Ask, MAX_CHUNK, Settings};
use std::alloc::Global;
use term_core::{App, List, Memory, Term};

/// How often an option is given.
#[derive(Debug, Drop)]
pub(crate) enum Given {
    Never,
    /// With this value.
    Once(Term),
    Again,
}

/// The value of a term `name(Value)`.
fn value_of(alloc: Global, term: &Term, name: &str) -> Result<Option<Term>, Memory>
    ensures { IfOk result (λ o. o ≡ value_of name.now term.now) }
{
    if !is_compound(term, name, 1) {
        return Ok(None);
    }
    let mut arguments = term.arguments(alloc)?;
    Ok(arguments.pop())
}

/// The option with one value more.
fn with_value(given: Given, value: Term) -> Given
    ensures { result ≡ with_value given value }
{
    match given {
        Given::Never => Given::Once(value),
        Given::Once(_) | Given::Again => Given::Again,
    }
}

/// What a list of options gives for a name.
fn given_for(alloc: Global, options: &[Term], name: &str) -> Result<Given, Memory>
    ensures { IfOk result (λ g. g ≡ given_for name.now options.now) }
{
    let mut given = Given::Never;
    for option in options {
        if let Some(value) = value_of(alloc, option, name)? {
            given = with_value(given, value);
        }
    }
    Ok(given)
}

/// The value that is given, or this term where there is none.
fn term_or(alloc: Global, term: &Term, given: Given) -> Result<Option<Term>, Memory>
    ensures { IfOk result (λ o. o ≡ term_or term.now given) }
{
    match given {
        Given::Never => Ok(Some(term.copied(alloc)?)),
        Given::Once(value) => Ok(Some(value)),
        Given::Again => Ok(None),
    }
}

/// The number that is given, from 1 to the greatest one, or this one where there is none.
fn number_or(number: u64, greatest: u64, given: &Given) -> Option<u64>
    requires { number ≤ greatest }
    ensures value { result ≡ number_or number greatest given.now }
    ensures small { IfSome result (λ n. n ≤ greatest) }
{
    match given {
        Given::Never => Some(number),
        Given::Once(value) => number_up_to(value, greatest),
        Given::Again => None,
    }
}

/// The truth value that is given, or this one where there is none.
fn flag_or(flag: bool, given: &Given) -> Option<bool>
    ensures { result ≡ flag_or flag given.now }
{
    match given {
        Given::Never => Some(flag),
        Given::Once(value) => flag_of(value),
        Given::Again => None,
    }
}

fn is_ask_option(term: &Term) -> bool
    ensures { result ≡ is_ask_option term.now }
{
    is_compound(term, "template", 1) || is_compound(term, "chunk", 1)
}

fn are_ask_options(options: &[Term]) -> bool
    ensures { result ≡ list_all is_ask_option options.now }
{
    options.iter().all(is_ask_option)
}

/// The ask of a goal with these options.
fn ask_of(alloc: Global, goal: &Term, options: &[Term], bytes: u64) -> Result<Option<Ask>, Memory>
    ensures { IfOk result (λ o. o ≡ ask_of bytes goal.now options.now) }
{
    if !are_ask_options(options) {
        return Ok(None);
    }
    let Some(template) = term_or(alloc, goal, given_for(alloc, options, "template")?)? else {
        return Ok(None);
    };
    let Some(chunk) = number_or(0, MAX_CHUNK, &given_for(alloc, options, "chunk")?) else {
        return Ok(None);
    };
    Ok(Some(Ask {
        goal: goal.copied(alloc)?,
        template,
        names: List::new(alloc),
        chunk: chunk as u32,
        bytes,
    }))
}

/// The ask of a goal with a list of options, which was read from so many bytes.
pub(crate) fn ask_with(
    alloc: Global,
    goal: &Term,
    options: &Term,
    bytes: u64,
) -> Result<Option<Ask>, Memory>
    ensures { IfOk result (λ o. o ≡ ask_with bytes goal.now options.now) }
{
    let Some(options) = elements(alloc, options, 2)? else {
        return Ok(None);
    };
    let ask = ask_of(alloc, goal, &options, bytes)?;
    Ok(ask)
}

fn is_create_option(term: &Term) -> bool
    ensures { result ≡ is_create_option term.now }
{
    is_compound(term, "chunk", 1)
        || is_compound(term, "limit", 1)
        || is_compound(term, "destroy", 1)
}

fn are_create_options(options: &[Term]) -> bool
    ensures { result ≡ list_all is_create_option options.now }
{
    options.iter().all(is_create_option)
}

/// The settings of a pengine of an application that is made with these options.
fn settings_of(alloc: Global, app: App, options: &[Term]) -> Result<Option<Settings>, Memory>
    ensures { IfOk result (λ o. o ≡ settings_of app options.now) }
{
    if !are_create_options(options) {
        return Ok(None);
    }
    let Settings {
        chunk,
        limit,
        destroys,
        names,
    } = default_settings(app);
    let Some(chunk) = number_or(
        u64::from(chunk),
        MAX_CHUNK,
        &given_for(alloc, options, "chunk")?,
    ) else {
        return Ok(None);
    };
    let Some(limit) = number_or(
        limit,
        greatest_limit(app),
        &given_for(alloc, options, "limit")?,
    ) else {
        return Ok(None);
    };
    let Some(destroys) = flag_or(destroys, &given_for(alloc, options, "destroy")?) else {
        return Ok(None);
    };
    Ok(Some(Settings {
        chunk: chunk as u32,
        limit,
        destroys,
        names,
    }))
}

/// The settings that a term `create(Options)` gives a pengine of an application.
pub(crate) fn created(alloc: Global, app: App, term: &Term) -> Result<Option<Settings>, Memory>
    ensures { IfOk result (λ o. o ≡ created app term.now) }
{
    let Some(options) = value_of(alloc, term, "create")? else {
        return Ok(None);
    };
    let Some(options) = elements(alloc, &options, 3)? else {
        return Ok(None);
    };
    let settings = settings_of(alloc, app, &options)?;
    Ok(settings)
}
