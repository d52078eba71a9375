// The predicates that were seen.
ghost use Rattle.std.specs.Prelude.{◌≡◌, ◌||◌, ℕ, List, bytes_eq, IfOk};
ghost use Rattle.std.specs.BTreeSet.{contains_text};
ghost use Rattle.term_core.specs.declared.pi.Pi.{Pi as Indicator};
ghost use Rattle.program.specs.Clauses.{same_indicator};
ghost use Rattle.sandbox_walk.specs.Seen.{has as has_predicate};

use std::alloc::Global;
use std::collections::{BTreeMap, BTreeSet};
use term_core::{Memory, Pi};

type Names = BTreeSet<String>;

pub(crate) type Seen = BTreeMap<u32, Names>;

pub(crate) fn has(seen: &Seen, pi: &Pi) -> bool
    ensures { result ≡ has_predicate seen.now pi.now }
{
    match seen.get(&pi.arity) {
        None => false,
        Some(names) => names.contains(pi.name.as_str()),
    }
}

pub(crate) fn add(alloc: Global, seen: &mut Seen, pi: &Pi) -> Result<(), Memory>
    ensures { IfOk result (λ _. (q : Indicator) →
        has_predicate seen.new q ≡ (same_indicator pi.now q || has_predicate seen.old q)) }
{
    let mut names = match seen.remove(&pi.arity) {
        Some(names) => names,
        None => BTreeSet::new(alloc),
    };
    add_name(alloc, &mut names, pi.name.as_str())?;
    seen.insert(pi.arity, names)?;
    Ok(())
}

fn add_name(alloc: Global, names: &mut Names, name: &str) -> Result<(), Memory>
    ensures { IfOk result (λ _. (q : List ℕ) →
        contains_text names.new q ≡ (bytes_eq name.now q || contains_text names.old q)) }
{
    names.insert(String::from_str(alloc, name)?)?;
    Ok(())
}
