// Clauses by their predicates.
ghost use Rattle.std.specs.Prelude.{◌≡◌, ◌++◌, ◌∷◌, [], ℕ, List, length, map, filter, not, if◌then◌else◌, bytes_eq, IfOk};
ghost use Rattle.std.specs.BTreeMap.{get_by_text};
ghost use Rattle.term_core.specs.declared.pi.Pi.{Pi};
ghost use Rattle.program.specs.Clauses.{same_indicator};
ghost use Rattle.program.specs.ByPredicate.{found, held_at, in_order, IsByPredicate};
ghost use Rattle.program.specs.Kept.{clause_of};
ghost use Rattle.program.specs.Source.{defines};

use crate::clause::Clause;
use crate::entry::Entry;
use std::alloc::Global;
use std::collections::BTreeMap;
use std::marker::Model;
use term_core::{Memory, Pi};

type ByName = BTreeMap<String, Vec<Clause>>;

type ByArity = BTreeMap<u32, ByName>;

// The place of a clause: its predicate, and its number among the clauses of that.
#[derive(Debug, Drop)]
pub(crate) struct Place {
    pi: Pi,
    at: usize,
}

// A list of clauses, each of which is of a predicate, found by their predicates.
#[derive(Debug, Drop)]
pub(crate) struct ClauseMap {
    by_arity: ByArity,
    // where each clause of the list stands
    order: Vec<Place>,
}

impl Model for ClauseMap {
    ghost use Rattle.std.specs.Prelude.{List};
    ghost use Rattle.program.specs.Clauses as spec;
    ghost use Rattle.program.specs.Kept.{coded_clauses};
    ghost use Rattle.program.specs.ByPredicate.{in_order, IsByPredicate};

    ghost Value = { List spec.Clause };

    ghost coded = { coded_clauses };

    ghost view = { λ m. in_order m.by_arity m.order.items };

    ghost invariant = { λ m. IsByPredicate m.by_arity m.order.items };
}

impl ClauseMap {
    ghost use Rattle.std.specs.Prelude.{map, filter, not};
    ghost use Rattle.program.specs.Clauses.{clauses_of};
    ghost use Rattle.program.specs.Kept.{clause_of};
    ghost use Rattle.program.specs.Source.{defines};

    pub(crate) fn new(alloc: Global) -> ClauseMap
        ensures { result ≡ [] }
    {
        ClauseMap {
            by_arity: BTreeMap::new(alloc),
            order: Vec::new(alloc),
        }
    }

    // The clauses of a predicate, in order.
    pub(crate) fn of(&self, pi: &Pi) -> &[Clause]
        ensures { map clause_of result.now ≡ clauses_of pi.now self.now }
    {
        found(&self.by_arity, pi)
    }

    // The list with one more clause.
    pub(crate) fn with(self, alloc: Global, entry: Entry) -> Result<ClauseMap, Memory>
        ensures { IfOk result (λ m. m ≡ self ++ clause_of entry.clause ∷ []) }
    {
        let ClauseMap {
            mut by_arity,
            mut order,
        } = self;
        let Entry { pi, clause } = entry;
        let at = found(&by_arity, &pi).len();
        push(alloc, &mut by_arity, &pi, clause)?;
        order.push(Place { pi, at })?;
        Ok(ClauseMap { by_arity, order })
    }

    // The clauses in order, without those of each predicate that the other list defines.
    pub(crate) fn without<'a>(
        &'a self,
        alloc: Global,
        other: &ClauseMap,
    ) -> Result<Vec<&'a Clause>, Memory>
        ensures { IfOk result (λ v. map (λ c. clause_of c.now) v.items ≡ filter (λ c. not (defines other.now c.head)) self.now) }
    {
        without(alloc, &self.by_arity, &self.order, other)
    }
}

// The clauses at these places, without those of each predicate that the other list defines.
fn without<'a>(
    alloc: Global,
    by_arity: &'a ByArity,
    order: &[Place],
    other: &ClauseMap,
) -> Result<Vec<&'a Clause>, Memory>
    requires { IsByPredicate by_arity.now order.now }
    ensures { IfOk result (λ v. map (λ c. clause_of c.now) v.items ≡ filter (λ c. not (defines other.now c.head)) (in_order by_arity.now order.now)) }
{
    let mut kept = Vec::new(alloc);
    for place in order {
        let of_predicate = found(by_arity, &place.pi);
        let clause = &of_predicate[place.at];
        if other.of(&place.pi).is_empty() {
            kept.push(clause)?;
        }
    }
    Ok(kept)
}

// The clauses that are kept for a predicate.
fn found<'a>(by_arity: &'a ByArity, pi: &Pi) -> &'a [Clause]
    ensures { result.now ≡ found by_arity.now pi.now }
{
    let Some(by_name) = by_arity.get(&pi.arity) else {
        return &[];
    };
    match by_name.get(pi.name.as_str()) {
        Some(clauses) => clauses.as_slice(),
        None => &[],
    }
}

// Puts a clause behind those of its predicate.
fn push(alloc: Global, by_arity: &mut ByArity, pi: &Pi, clause: Clause) -> Result<(), Memory>
    ensures { IfOk result (λ _. (q : Pi) →
        found by_arity.new q ≡ (if same_indicator pi.now q then found by_arity.old q ++ clause ∷ [] else found by_arity.old q)) }
{
    let mut by_name = match by_arity.remove(&pi.arity) {
        Some(by_name) => by_name,
        None => BTreeMap::new(alloc),
    };
    push_named(alloc, &mut by_name, pi.name.as_str(), clause)?;
    by_arity.insert(pi.arity, by_name)?;
    Ok(())
}

fn push_named(alloc: Global, by_name: &mut ByName, name: &str, clause: Clause) -> Result<(), Memory>
    ensures { IfOk result (λ _. (q : List ℕ) →
        held_at by_name.new q ≡ (if bytes_eq name.now q then held_at by_name.old q ++ clause ∷ [] else held_at by_name.old q)) }
{
    if let Some(clauses) = by_name.get_mut(name) {
        clauses.push(clause)?;
        return Ok(());
    }
    let clauses = vec![in alloc; clause]?;
    by_name.insert(String::from_str(alloc, name)?, clauses)?;
    Ok(())
}
