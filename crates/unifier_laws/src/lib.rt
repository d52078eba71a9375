//! Laws of the most general unifier (ISO 13211-1, clause 7.3.2), which hold of what `term_core::unify` answers.
#![tactic(auto)]

ghost use Rattle.unifier_laws.specs.Laws.{SolvesItsPairs, IsMostGeneral, IsIdempotent, OrderDoesntMatter, FollowsWhatIsGiven};

/// The most general unifier makes the two terms of each pair one.
pub fn solves_its_pairs()
    ensures { SolvesItsPairs }
{}

/// Pairs that have a unifier have a most general one, and every unifier of the pairs goes through it.
pub fn is_most_general()
    ensures { IsMostGeneral }
{}

/// Applied twice, the most general unifier is as applied once.
pub fn is_idempotent()
    ensures { IsIdempotent }
{}

/// As a map the most general unifier is the same for every order of the pairs, and it exists for each order or for none.
pub fn order_doesnt_matter()
    ensures { OrderDoesntMatter }
{}

/// Pairs that are solved under a substitution are solved by it and then the most general unifier of what it makes of them.
pub fn follows_what_is_given()
    ensures { FollowsWhatIsGiven }
{}
