// What programs and sessions are made of. Only this file calls what loads them.
ghost use Rattle.std.specs.Prelude.{IfOk};
ghost use Rattle.program.specs.Source.{AreNumbered};
ghost use Rattle.sandbox_walk.specs.Keeping.{KeepsSandbox};

use crate::stop::Stop;
use builtin_table::Table;
use event_core::Spec;
use lib_text::Library;
use program::Program;
use prolog_read::{ReadFault, read_clauses};
use request_text::{Options, Script, ScriptFault, SpecFault, read_script, read_spec};
use session::Session;
use std::alloc::Global;
use std::sync::Arc;
use term_core::{App, Pi, ReadTerm};

fn clauses(alloc: Global, text: &str) -> Result<Vec<ReadTerm>, Stop>
    ensures { IfOk result (λ v. AreNumbered v.items) }
{
    match read_clauses(alloc, text) {
        Ok(terms) => Ok(terms),
        Err(ReadFault::Memory) => Err(Stop::Memory),
        Err(_) => Err(Stop::Malformed),
    }
}

/// The program of a source text over a library's text, where these predicates may not be defined.
pub(crate) fn load(
    alloc: Global,
    reserved: &[Pi],
    library: &str,
    own: &str,
) -> Result<Program, Stop> {
    let library = clauses(alloc, library)?;
    let own = clauses(alloc, own)?;
    Ok(Program::from_terms(alloc, own, &library, reserved, App::Sandbox)?)
}

/// The program of a source text over an application's library, or over a text where the field names no application, and where
/// what is built in may not be defined.
pub(crate) fn load_over(alloc: Global, library: &str, own: &str) -> Result<Arc<Program>, Stop> {
    let program = match App::named(library) {
        Some(app) => Library::read(alloc, app)?.load(alloc, clauses(alloc, own)?)?,
        None => {
            let table = Table::of(alloc, App::Sandbox)?;
            load(alloc, table.reserved(), library, own)?
        }
    };
    Ok(Arc::new(alloc, program)?)
}

/// What a script spells over the library.
pub(crate) fn script(alloc: Global, library: &Library, text: &[u8]) -> Result<Script, ScriptFault>
    ensures { IfOk result (λ s. KeepsSandbox s.spec.program.value) }
{
    read_script(alloc, library, text)
}

/// A session of this spec.
pub(crate) fn begun(alloc: Global, spec: Spec) -> Result<Session, Stop>
    requires { KeepsSandbox spec.program.value }
{
    Ok(Session::create(alloc, spec)?)
}

/// What options spell over the library.
pub(crate) fn spec(alloc: Global, library: &Library, options: &Options) -> Result<Spec, SpecFault> {
    read_spec(alloc, library, options)
}
