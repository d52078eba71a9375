ghost use Rattle.program.specs.Laws.{ClientReplacesLibrary};

/// A predicate that the client defines has the client's clauses alone, and every other one the library's.
pub fn client_replaces_library()
    ensures { ClientReplacesLibrary }
{}
