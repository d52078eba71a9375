// What the options of a new pengine spell.
ghost use Rattle.std.specs.Prelude.{◌≡◌, ◌≢◌, ◌+◌, Ok, Err, IfOk, IfErr};
ghost use Rattle.prolog_read.specs.Clauses.{iso};
ghost use Rattle.prolog_read.specs.Outcome.{read_as, term_read};
ghost use Rattle.sandbox_walk.specs.Keeping.{KeepsSandbox};
ghost use Rattle.request_text.specs.declared.fault.SpecFault.TheVariants as spec_fault;
ghost use Rattle.request_text.specs.Spelled.{program_in};
ghost use Rattle.request_text.specs.Creation.{read_for, template_in, size_of, ask_in, first_ask, creation};
ghost use Rattle.request_text.specs.Kept.{creation_read};

use crate::fault::SpecFault;
use crate::template::{beside, names_beside, told_names};
use event_core::{Ask, Settings, Spec};
use lib_text::Library;
use op_table::Ops;
use program::Program;
use prolog_read::{ReadFault, read_clauses, read_term};
use std::alloc::Global;
use std::sync::Arc;
use term_core::{Memory, ReadTerm, Text};

/// The options with which a client makes a pengine (Lager and Wielemaker, TPLP 2014).
#[derive(Debug, Drop)]
pub struct Options {
    /// The text of the first query, where there is one.
    pub ask: Option<Text>,
    /// The text of the query's template; without it the answers are instances of the query.
    pub template: Option<Text>,
    /// The source text of the program.
    pub src_text: Text,
    /// How many answers an event holds where an ask names no number; from 1 to 1,000. It holds fewer where their texts have
    /// [`CHUNK_BYTES`](event_core::CHUNK_BYTES) together.
    pub chunk: u32,
    /// How many steps each query may make; from 1 to the [`greatest_limit`](crate::greatest_limit) of the application; a client that names none gets that of
    /// [`default_settings`](crate::default_settings).
    pub limit: u64,
    /// Whether the pengine is destroyed at the end of a query.
    pub destroy: bool,
    /// Whether its answers carry the names of the query's variables.
    pub names: bool,
}

/// Reads the program that a source text spells over the library. It is refused where it can't be read (`Source`), and then
/// where one of its clauses is refused (`Clause`).
pub fn program_in(alloc: Global, library: &Library, text: &str) -> Result<Program, SpecFault>
    ensures program { IfOk result (λ p. program_in library.now.app text.now ≡ Ok p) }
    ensures keeps { IfOk result (λ p. KeepsSandbox p) }
    ensures refused { IfErr result (λ e. e ≢ spec_fault.Memory → program_in library.now.app text.now ≡ Err e) }
{
    let clauses = match read_clauses(alloc, text) {
        Ok(clauses) => clauses,
        Err(ReadFault::Memory) => return Err(SpecFault::Memory),
        Err(fault) => return Err(SpecFault::Source(fault)),
    };
    let program = library.load(alloc, clauses)?;
    Ok(program)
}

/// The term of a query's text.
fn goal_in(alloc: Global, ops: &Ops, text: &str) -> Result<ReadTerm, SpecFault>
    requires { ops.now ≡ iso }
    ensures goal { IfOk result (λ g. read_for spec_fault.Ask (term_read iso text.now) ≡ Ok (read_as g)) }
    ensures refused { IfErr result (λ e. e ≢ spec_fault.Memory → read_for spec_fault.Ask (term_read iso text.now) ≡ Err e) }
{
    match read_term(alloc, text, ops) {
        Ok(goal) => Ok(goal),
        Err(ReadFault::Memory) => Err(SpecFault::Memory),
        Err(fault) => Err(SpecFault::Ask(fault)),
    }
}

/// The term of a template's text, by itself.
fn template_alone(alloc: Global, ops: &Ops, text: &str) -> Result<ReadTerm, SpecFault>
    requires { ops.now ≡ iso }
    ensures template { IfOk result (λ t. read_for spec_fault.Template (term_read iso text.now) ≡ Ok (read_as t)) }
    ensures refused { IfErr result (λ e. e ≢ spec_fault.Memory → read_for spec_fault.Template (term_read iso text.now) ≡ Err e) }
{
    match read_term(alloc, text, ops) {
        Ok(template) => Ok(template),
        Err(ReadFault::Memory) => Err(SpecFault::Memory),
        Err(fault) => Err(SpecFault::Template(fault)),
    }
}

/// The template of a goal, which is the term of its text, or the goal where it has none; and the names that answers carry.
fn template_in(
    alloc: Global,
    ops: &Ops,
    goal: &ReadTerm,
    text: &Option<Text>,
) -> Result<ReadTerm, SpecFault>
    requires { ops.now ≡ iso }
    ensures template { IfOk result (λ t. template_in (read_as goal.now) text.now ≡ Ok (read_as t)) }
    ensures refused { IfErr result (λ e. e ≢ spec_fault.Memory → template_in (read_as goal.now) text.now ≡ Err e) }
{
    let Some(text) = text else {
        return Ok(ReadTerm {
            term: goal.term.copied(alloc)?,
            names: told_names(alloc, goal.names.as_slice())?,
        });
    };
    let template = template_alone(alloc, ops, text.as_str())?;
    Ok(ReadTerm {
        term: beside(alloc, goal, &template)?,
        names: names_beside(alloc, goal, &template)?,
    })
}

/// How many bytes a text has, if there is one.
fn size_of(text: &Option<Text>) -> u64
    ensures { result ≡ size_of text.now }
{
    match text {
        Some(text) => text.len() as u64,
        None => 0,
    }
}

/// The ask of a query's text and of its template's.
fn ask_in(alloc: Global, text: &Text, template: &Option<Text>) -> Result<Ask, SpecFault>
    ensures ask { IfOk result (λ a. ask_in text.now template.now ≡ Ok a) }
    ensures refused { IfErr result (λ e. e ≢ spec_fault.Memory → ask_in text.now template.now ≡ Err e) }
{
    let ops = Ops::iso(alloc)?;
    let bytes = size_of(template)
        .checked_add(text.len() as u64)
        .ok_or(Memory)?;
    let goal = goal_in(alloc, &ops, text.as_str())?;
    let template = template_in(alloc, &ops, &goal, template)?;
    Ok(Ask {
        goal: goal.term,
        template: template.term,
        names: template.names,
        chunk: 0,
        bytes,
    })
}

/// The first query, where there is one.
fn first_ask(
    alloc: Global,
    text: &Option<Text>,
    template: &Option<Text>,
) -> Result<Option<Ask>, SpecFault>
    ensures ask { IfOk result (λ a. first_ask text.now template.now ≡ Ok a) }
    ensures refused { IfErr result (λ e. e ≢ spec_fault.Memory → first_ask text.now template.now ≡ Err e) }
{
    let Some(text) = text else {
        return Ok(None);
    };
    let ask = ask_in(alloc, text, template)?;
    Ok(Some(ask))
}

/// Reads what a pengine is made with: its program, of the source text over the library, and its first query. A variable
/// of the template with the name of one of the query is that variable, `_` aside; every other is a variable of its own.
/// Without a template's text the query is its template, and without a query the template isn't read. The names of the
/// query are those of the variables of both texts that don't begin with `_`, each once and in byte order.
///
/// The source text is refused first, where it can't be read (`Source`) or has a clause that is refused (`Clause`); then
/// the query, where its text isn't one term (`Ask`), and then the template likewise (`Template`). Queries and templates
/// are read by the standard's operators.
pub fn read_spec(alloc: Global, library: &Library, o: &Options) -> Result<Spec, SpecFault>
    ensures spec { IfOk result (λ s. creation library.now.app o.now ≡ Ok (creation_read s)) }
    ensures keeps { IfOk result (λ s. KeepsSandbox s.program.value) }
    ensures refused { IfErr result (λ e. e ≢ spec_fault.Memory → creation library.now.app o.now ≡ Err e) }
{
    let program = program_in(alloc, library, o.src_text.as_str())?;
    let ask = first_ask(alloc, &o.ask, &o.template)?;
    Ok(Spec {
        program: Arc::new(alloc, program)?,
        ask,
        settings: Settings {
            chunk: o.chunk,
            limit: o.limit,
            destroys: o.destroy,
            names: o.names,
        },
        bytes: o.src_text.len() as u64,
    })
}
