use crate::clause::Clause;
use crate::clause_map::ClauseMap;
use crate::fault::ProgFault;
use crate::texts::{library_clauses, own_clauses};
use std::alloc::Global;
use std::marker::Model;
use term_core::{App, Memory, Pi, ReadTerm};

/// A program that is loaded for an application. Contracts see its clauses, which are the library's, less each predicate
/// that the client defines, then the client's, in the order of their texts; its application; and its declarations, of
/// which there are none.
#[derive(Debug, Drop)]
pub struct Program {
    library: ClauseMap,
    own: ClauseMap,
    app: App,
}

impl Model for Program {
    ghost use Rattle.std.specs.Prelude.{[]};
    ghost use Rattle.program.specs.Loaded.{Loaded, coded_loaded};
    ghost use Rattle.program.specs.Source.{program_of};

    ghost Value = { Loaded };

    ghost coded = { coded_loaded };

    ghost view = { λ p. record { clauses = program_of p.library p.own; app = p.app; declared = [] } };
}

impl Program {
    ghost use Rattle.std.specs.Prelude.{◌≡◌, [], map, true, false, IfOk, IfErr, OnOk, None};
    ghost use Rattle.program.specs.Clauses.{clauses_of};
    ghost use Rattle.program.specs.Kept.{clause_of};
    ghost use Rattle.program.specs.Source.{AreNumbered, trees_read, clauses_in, program_of, first_fault, Tells};

    /// The program of a client's source text and a library, for an application. The variables of each term are numbered from 0 without a gap.
    ///
    /// A term `:- D` is a directive, `Head :- Body` a clause, and any other term a clause whose body is `true`. The terms of
    /// `own` are checked in order, and the first that has a fault is answered, by its number from 1:
    /// - `BadDirective`: a directive that is neither the use of a library, `use_module(library(Name))` or
    ///   `use_module(library(Name), Imports)`, nor an `op/3` that [`Ops::add`](op_table::Ops::add) takes;
    /// - `NotCallable`: a clause whose head is neither an atom nor a compound, or whose body isn't a body;
    /// - `Redefines`: a clause of a predicate that is among `reserved` or whose name begins with `$`.
    ///
    /// Nothing of the library is refused: what is no clause there is left out, and so is each predicate that the client defines.
    pub fn from_terms(
        alloc: Global,
        own: Vec<ReadTerm>,
        library: &[ReadTerm],
        reserved: &[Pi],
        app: App,
    ) -> Result<Program, ProgFault>
        requires own_numbered { AreNumbered own.items }
        requires library_numbered { AreNumbered library.now }
        ensures clauses { IfOk result (λ p.
            p.clauses ≡ program_of (clauses_in false (trees_read library.now)) (clauses_in true (trees_read own.items))) }
        ensures app { IfOk result (λ p. p.app ≡ app) }
        ensures declared { IfOk result (λ p. p.declared ≡ []) }
        ensures accepted { OnOk result (first_fault reserved.now 1 (trees_read own.items) ≡ None) }
        ensures refused { IfErr result (Tells (first_fault reserved.now 1 (trees_read own.items))) }
    {
        let own = own_clauses(alloc, &own, reserved)?;
        let library = library_clauses(alloc, library)?;
        Ok(Program { library, own, app })
    }

    /// The application that the program is loaded for.
    pub fn app(&self) -> App
        ensures { result ≡ self.now.app }
    {
        self.app
    }

    /// The clauses of a predicate, in the order of the text; none where the program doesn't define it.
    pub fn clauses(&self, pi: &Pi) -> &[Clause]
        ensures { map clause_of result.now ≡ clauses_of pi.now self.now.clauses }
    {
        let own = self.own.of(pi);
        if own.is_empty() {
            self.library.of(pi)
        } else {
            own
        }
    }

    /// All clauses in the program's order: the library's, less each predicate that the client defines, then the client's.
    pub fn in_order(&self, alloc: Global) -> Result<Vec<&Clause>, Memory>
        ensures { IfOk result (λ v. map (λ c. clause_of c.now) v.items ≡ self.now.clauses) }
    {
        let mut clauses = self.library.without(alloc, &self.own)?;
        let nothing = ClauseMap::new(alloc);
        let mut own = self.own.without(alloc, &nothing)?;
        clauses.append(&mut own)?;
        Ok(clauses)
    }
}
