// Directives (ISO 13211-1, 7.4.2): the use of a library, and op/3.
ghost use Rattle.std.specs.Prelude.{◌≡◌, IfOk};
ghost use Rattle.program.specs.Source.{is_one_atom, is_library, are_imports, is_operator, is_directive};
ghost use Rattle.program.specs.Symbols.{is_operator_of, functor_of};

use op_table::{OpFault, Ops};
use std::alloc::Global;
use term_core::{Memory, Node, Term};

// Whether a directive is accepted. An accepted `op/3` changes the operators.
pub(crate) fn is_directive(alloc: Global, directive: &Term, ops: &mut Ops) -> Result<bool, Memory>
    ensures { IfOk result (λ b. b ≡ is_directive directive.now) }
{
    let arguments = directive.arguments(alloc)?;
    match functor(directive) {
        "use_module" => are_imports(alloc, &arguments),
        "op" => is_operator(&arguments, ops),
        _ => Ok(false),
    }
}

// A library, and what is imported from it.
fn are_imports(alloc: Global, arguments: &[Term]) -> Result<bool, Memory>
    ensures { IfOk result (λ b. b ≡ are_imports arguments.now) }
{
    match arguments {
        [library] | [library, _] => is_library(alloc, library),
        _ => Ok(false),
    }
}

// `library(Name)`.
fn is_library(alloc: Global, term: &Term) -> Result<bool, Memory>
    ensures { IfOk result (λ b. b ≡ is_library term.now) }
{
    let arguments = term.arguments(alloc)?;
    Ok(functor(term) == "library" && is_one_atom(&arguments))
}

fn is_one_atom(arguments: &[Term]) -> bool
    ensures { result ≡ is_one_atom arguments.now }
{
    match arguments {
        [name] => matches!(name.symbol(), Node::Atom(_)),
        _ => false,
    }
}

// The arguments of an `op/3` that is accepted, and that changes the operators.
fn is_operator(arguments: &[Term], ops: &mut Ops) -> Result<bool, Memory>
    ensures { IfOk result (λ b. b ≡ is_operator arguments.now) }
{
    match arguments {
        [priority, kind, name] => add(priority.symbol(), kind.symbol(), name.symbol(), ops),
        _ => Ok(false),
    }
}

fn add(priority: &Node, kind: &Node, name: &Node, ops: &mut Ops) -> Result<bool, Memory>
    ensures { IfOk result (λ b. b ≡ is_operator_of priority.now kind.now name.now) }
{
    let (Node::Int(priority), Node::Atom(kind), Node::Atom(name)) = (priority, kind, name) else {
        return Ok(false);
    };
    match ops.add(*priority, kind.as_str(), name.as_str()) {
        Ok(()) => Ok(true),
        Err(OpFault::Memory) => Err(Memory),
        Err(OpFault::BadPriority | OpFault::BadKind | OpFault::Clash) => Ok(false),
    }
}

// A compound's name.
fn functor(term: &Term) -> &str
    ensures { result.now ≡ functor_of term.now }
{
    match term.symbol() {
        Node::Comp(name, _) => name.as_str(),
        Node::Var(_) | Node::Int(_) | Node::Atom(_) => "",
    }
}
