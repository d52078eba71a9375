// Laws that hold of every library and every client's text.
ghost use Rattle.library_check.specs.Loaded.{AcceptedTextsKeepTheSandbox, LoadedTextsKeepTheSandbox};

/// Each clause of a client's text that is accepted is of a predicate that the sandbox leaves to the client: it isn't reserved,
/// and its name doesn't begin with `$`.
pub fn accepted_texts_keep_the_sandbox()
    ensures { AcceptedTextsKeepTheSandbox }
{}

/// The clauses that are loaded over a library that keeps to the sandbox keep to it too, where the client's text is accepted.
pub fn loaded_texts_keep_the_sandbox()
    ensures { LoadedTextsKeepTheSandbox }
{}
