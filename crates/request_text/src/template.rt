// A template that is a text of its own, beside its goal.
ghost use Rattle.std.specs.Prelude.{◌≡◌, ◌+◌, ℕ, List as list, map, unwrap_or, IfOk};
ghost use Rattle.std.specs.Ordering.{nat_cmp};
ghost use Rattle.std.specs.BTreeMap.{get, get_by_text};
ghost use Rattle.term_core.specs.Nodes.{map_node};
ghost use Rattle.prolog_read.specs.Variables.{lookup};
ghost use Rattle.prolog_read.specs.Outcome.{read_as};
ghost use Rattle.request_text.specs.Kept.{in_order};
ghost use Rattle.request_text.specs.Templates.{shared, beside, is_told, told_before, told_names, names_behind, names_beside};

use std::alloc::Global;
use std::collections::BTreeMap;
use term_core::{List, Memory, Name, Node, ReadTerm, Term};

/// The number of each name.
fn index_of(alloc: Global, names: &[(Name, u64)]) -> Result<BTreeMap<String, u64>, Memory>
    ensures { IfOk result (λ m. (w : list ℕ) → get_by_text m w ≡ lookup w names.now) }
{
    let mut index = BTreeMap::new(alloc);
    for i in 0..names.len() {
        let (name, number) = &names[names.len() - 1 - i];
        index.insert(String::from_str(alloc, name.as_str())?, *number)?;
    }
    Ok(index)
}

/// For the variables of a template that have the name of one of the goal, that one.
fn shared(
    alloc: Global,
    goal: &[(Name, u64)],
    template: &[(Name, u64)],
) -> Result<BTreeMap<u64, u64>, Memory>
    ensures { IfOk result (λ m. (n : ℕ) → get nat_cmp m n ≡ shared goal.now template.now n) }
{
    let index = index_of(alloc, goal)?;
    let mut shared = BTreeMap::new(alloc);
    for i in 0..template.len() {
        let (name, number) = &template[template.len() - 1 - i];
        if let Some(own) = index.get(name.as_str()) {
            shared.insert(*number, *own)?;
        }
    }
    Ok(shared)
}

/// A variable's number beside a goal whose variables are below `free`.
fn number_beside(shared: &BTreeMap<u64, u64>, free: u64, number: u64) -> Result<u64, Memory>
    ensures { IfOk result (λ n. n ≡ unwrap_or (get nat_cmp shared.now number) (free + number)) }
{
    match shared.get(&number) {
        Some(own) => Ok(*own),
        None => free.checked_add(number).ok_or(Memory),
    }
}

/// The nodes with each variable's number beside the goal.
fn nodes_beside(
    alloc: Global,
    shared: &BTreeMap<u64, u64>,
    free: u64,
    nodes: &[Node],
) -> Result<Vec<Node>, Memory>
    ensures { IfOk result (λ v. v.items ≡ map (map_node (λ n. unwrap_or (get nat_cmp shared.now n) (free + n))) nodes.now) }
{
    let mut all = Vec::new(alloc);
    for node in nodes {
        let placed = match node {
            Node::Var(number) => Node::Var(number_beside(shared, free, *number)?),
            other => other.copied(alloc)?,
        };
        all.push(placed)?;
    }
    Ok(all)
}

/// A template beside its goal: a variable with the name of one of the goal is that one, and each other is a variable of
/// its own, numbered behind the goal's.
pub(crate) fn beside(alloc: Global, goal: &ReadTerm, template: &ReadTerm) -> Result<Term, Memory>
    ensures { IfOk result (λ t. t ≡ beside (read_as goal.now) (read_as template.now)) }
{
    let shared = shared(alloc, goal.names.as_slice(), template.names.as_slice())?;
    let free = goal.term.first_free()?;
    let nodes = nodes_beside(alloc, &shared, free, template.term.nodes())?;
    Term::first_of(alloc, &nodes)
}

/// Whether the name of a variable is told: it doesn't begin with `_`.
fn is_told(name: &str) -> bool
    ensures { result ≡ is_told name.now }
{
    match name.as_bytes().first() {
        Some(byte) => *byte != b'_',
        None => true,
    }
}

/// Those of the names that are told, put before others; the variables of these names are counted from `free`.
fn told_before<'a>(
    names: &'a [(Name, u64)],
    free: u64,
    others: BTreeMap<&'a str, u64>,
) -> Result<BTreeMap<&'a str, u64>, Memory>
    ensures { IfOk result (λ m. in_order m ≡ told_before (names_behind free names.now) (in_order others.entry)) }
{
    let mut told = others;
    for i in 0..names.len() {
        let (name, number) = &names[names.len() - 1 - i];
        if is_told(name.as_str()) {
            let number = free.checked_add(*number).ok_or(Memory)?;
            told.insert(name.as_str(), number)?;
        }
    }
    Ok(told)
}

/// The names, each with its variable, in byte order.
fn listed(alloc: Global, told: &BTreeMap<&str, u64>) -> Result<List<(Name, u64)>, Memory>
    ensures { IfOk result (λ ns. ns ≡ in_order told.now) }
{
    let mut names = List::new(alloc);
    for (name, number) in told {
        names.push((Name::new(alloc, name)?, *number))?;
    }
    Ok(names)
}

/// Those of the names that are told, each with its variable, in byte order.
pub(crate) fn told_names(alloc: Global, names: &[(Name, u64)]) -> Result<List<(Name, u64)>, Memory>
    ensures { IfOk result (λ ns. ns ≡ told_names names.now) }
{
    let told = told_before(names, 0, BTreeMap::new(alloc))?;
    listed(alloc, &told)
}

/// The names that answers to a goal carry whose template is a text of its own: those of the goal, and those of its template
/// with their variables beside the goal. A name that both have is the goal's.
pub(crate) fn names_beside(
    alloc: Global,
    goal: &ReadTerm,
    template: &ReadTerm,
) -> Result<List<(Name, u64)>, Memory>
    ensures { IfOk result (λ ns. ns ≡ names_beside (read_as goal.now) (read_as template.now)) }
{
    let free = goal.term.first_free()?;
    let behind = told_before(template.names.as_slice(), free, BTreeMap::new(alloc))?;
    let told = told_before(goal.names.as_slice(), 0, behind)?;
    listed(alloc, &told)
}
