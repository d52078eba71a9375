ghost use Rattle.std.specs.Prelude.{◌≡◌, true, false, map, length, string_bytes, Ok, IfOk, OnOk};
ghost use Rattle.prolog_read.specs.Clauses.{iso};
ghost use Rattle.prolog_read.specs.Outcome.{clauses_read, read_as};
ghost use Rattle.program.specs.Source.{AreNumbered, clauses_in, trees_read};
ghost use Rattle.sandbox_walk.specs.Keeping.{ClausesKeep};
ghost use Rattle.lib_text.specs.Clauses.{clauses_from};
ghost use Rattle.lib_text.specs.Text.{text_of as text_of_app};

use crate::text::{source, source_of};
use builtin_table::Table;
use library_check::keeps_sandbox;
use program::{ProgFault, Program};
use prolog_read::read_clauses;
use std::alloc::Global;
use std::marker::Model;
use term_core::{App, Memory, ReadTerm};

/// The terms of an application's library, read from its source text. Contracts see the library as a program to which no client
/// adds anything. It keeps to the sandbox.
#[derive(Debug, Drop)]
pub struct Library {
    terms: Vec<ReadTerm>,
    app: App,
}

impl Model for Library {
    ghost use Rattle.std.specs.Prelude.{◌≡◌, false, []};
    ghost use Rattle.program.specs.Loaded.{Loaded, coded_loaded};
    ghost use Rattle.program.specs.Source.{AreNumbered, clauses_in, trees_read};
    ghost use Rattle.sandbox_walk.specs.Keeping.{ClausesKeep};
    ghost use Rattle.lib_text.specs.Clauses.{library_clauses};

    ghost Value = { Loaded };

    ghost coded = { coded_loaded };

    ghost view = { λ l. record { clauses = clauses_in false (trees_read l.terms.items); app = l.app; declared = [] } };

    ghost invariant = { λ l.
        AreNumbered l.terms.items
        × (clauses_in false (trees_read l.terms.items) ≡ library_clauses l.app)
        × ClausesKeep l.app (library_clauses l.app) };
}

impl Library {
    ghost use Rattle.std.specs.Prelude.{◌≡◌, [], true, false, IfOk, IfErr, OnOk, None};
    ghost use Rattle.builtin_table.specs.Table.{rows_of_app, reserved_of};
    ghost use Rattle.program.specs.Source.{AreNumbered, clauses_in, trees_read, program_of, first_fault, Tells};
    ghost use Rattle.sandbox_walk.specs.Keeping.{ClausesKeep, KeepsSandbox};
    ghost use Rattle.lib_text.specs.Clauses.{library_clauses, library_of, IsAccepted};
    ghost use Rattle.lib_text.specs.Text.{text_of};

    /// Reads the source text of an application's library, which can be read, of which each term is a clause, and which keeps to
    /// the sandbox. `Err` is want of memory; a text for which one of these doesn't hold would be refused so too.
    #[tactic(auto, using(crate::proofs::Accepted::all_accepted), unfolding(crate::specs::Clauses::library_clauses))]
    pub fn read(alloc: Global, app: App) -> Result<Library, Memory>
        ensures library { IfOk result (λ l. l ≡ library_of app) }
        ensures accepted { OnOk result (IsAccepted (text_of app)) }
        ensures keeps { OnOk result (ClausesKeep app (library_clauses app)) }
    {
        let text = text_of(alloc, app)?;
        let terms = terms_of(alloc, &text)?;
        if !is_sound(alloc, &terms, app)? {
            return Err(Memory);
        }
        Ok(Library { terms, app })
    }

    /// The program of a client's source text over the library. It keeps to the sandbox, whatever the text. The faults are
    /// those of [`Program::from_terms`], where the built-in predicates of the application are reserved.
    #[tactic(auto, using(crate::proofs::Accepted::loaded_keeps))]
    pub fn load(&self, alloc: Global, own: Vec<ReadTerm>) -> Result<Program, ProgFault>
        requires { AreNumbered own.items }
        ensures clauses { IfOk result (λ p. p.clauses ≡ program_of (library_clauses self.now.app) (clauses_in true (trees_read own.items))) }
        ensures app { IfOk result (λ p. p.app ≡ self.now.app) }
        ensures declared { IfOk result (λ p. p.declared ≡ []) }
        ensures keeps { IfOk result (λ p. KeepsSandbox p) }
        ensures accepted { OnOk result (first_fault (reserved_of (rows_of_app self.now.app)) 1 (trees_read own.items) ≡ None) }
        ensures refused { IfErr result (Tells (first_fault (reserved_of (rows_of_app self.now.app)) 1 (trees_read own.items))) }
    {
        let table = Table::of(alloc, self.app)?;
        match Program::from_terms(alloc, own, &self.terms, table.reserved(), self.app) {
            Ok(program) => Ok(program),
            Err(fault) => Err(fault),
        }
    }

    /// The program of the library, to which no client adds anything. `Err` is want of memory.
    pub fn alone(&self, alloc: Global) -> Result<Program, Memory>
        ensures { IfOk result (λ p. p.clauses ≡ library_clauses self.now.app) }
    {
        alone(alloc, &self.terms, self.app)
    }

    /// The application whose library it is.
    pub fn app(&self) -> App
        ensures { result ≡ self.now.app }
    {
        self.app
    }

    /// The terms of the source text, in order.
    pub fn terms(&self) -> &[ReadTerm]
        ensures numbered { AreNumbered result.now }
        ensures clauses { clauses_in false (trees_read result.now) ≡ library_clauses self.now.app }
    {
        &self.terms
    }
}

// The source text of an application's library.
fn text_of(alloc: Global, app: App) -> Result<String, Memory>
    ensures { IfOk result (λ t. string_bytes t ≡ text_of_app app) }
{
    let mut text = String::from_str(alloc, source())?;
    text.push_str(source_of(app))?;
    Ok(text)
}

// The terms of a text that can be read.
fn terms_of(alloc: Global, text: &str) -> Result<Vec<ReadTerm>, Memory>
    ensures numbered { IfOk result (λ v. AreNumbered v.items) }
    ensures clauses { IfOk result (λ v. clauses_in false (trees_read v.items) ≡ clauses_from (clauses_read iso text.now)) }
    ensures read { IfOk result (λ v. clauses_read iso text.now ≡ Ok (map read_as v.items)) }
{
    match read_clauses(alloc, text) {
        Ok(terms) => Ok(terms),
        Err(_) => Err(Memory),
    }
}

// Whether each term of a library is a clause, and these keep to the sandbox.
#[tactic(auto, using(crate::proofs::Accepted::is_kept))]
fn is_sound(alloc: Global, library: &[ReadTerm], app: App) -> Result<bool, Memory>
    requires { AreNumbered library.now }
    ensures whole { IfOk result (λ b. b ≡ true → length (clauses_in false (trees_read library.now)) ≡ length library.now) }
    ensures keeps { IfOk result (λ b. b ≡ true → ClausesKeep app (clauses_in false (trees_read library.now))) }
{
    let program = alone(alloc, library, app)?;
    if program.in_order(alloc)?.len() != library.len() {
        return Ok(false);
    }
    let kept = keeps_sandbox(alloc, &program)?;
    Ok(kept)
}

// The program of a library to which no client adds anything.
fn alone(alloc: Global, library: &[ReadTerm], app: App) -> Result<Program, Memory>
    requires { AreNumbered library.now }
    ensures clauses { IfOk result (λ p. p.clauses ≡ clauses_in false (trees_read library.now)) }
    ensures app { IfOk result (λ p. p.app ≡ app) }
{
    match Program::from_terms(alloc, Vec::new(alloc), library, &[], app) {
        Ok(program) => Ok(program),
        Err(_) => Err(Memory),
    }
}
