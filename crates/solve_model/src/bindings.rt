use std::alloc::Global;
use std::marker::Model;
use std::rc::Rc;
use term_core::{Memory, Subst, Term, unify};

// A substitution that alternatives share.
#[derive(Drop)]
pub(crate) struct Bindings {
    subst: Rc<Subst>,
}

impl Model for Bindings {
    ghost use Rattle.std.specs.Prelude.{ℕ, List};
    ghost use Rattle.std.specs.Coded.{coded_list, coded×, coded_ℕ};
    ghost use Rattle.term_core.specs.Tree.{Tree};
    ghost use Rattle.term_core.specs.Flat.{tree_code};

    ghost Value = { List (ℕ × Tree) };

    ghost coded = { coded_list (coded× coded_ℕ tree_code) };

    ghost view = { λ b. b.subst.value };
}

impl Bindings {
    ghost use Rattle.std.specs.Prelude.{◌≡◌, IfOk};
    ghost use Rattle.term_core.specs.Unifier.{mgu};

    pub(crate) fn new(alloc: Global, subst: Subst) -> Result<Bindings, Memory>
        ensures { IfOk result (λ b. b ≡ subst) }
    {
        let subst = Rc::new(alloc, subst)?;
        Ok(Bindings { subst })
    }

    pub(crate) fn subst(&self) -> &Subst
        ensures { result.now ≡ self.now }
    {
        self.subst.as_ref()
    }

    // The same again, which is shared and not copied.
    pub(crate) fn shared(&self) -> Result<Bindings, Memory>
        ensures { IfOk result (λ b. b ≡ self.now) }
    {
        let subst = self.subst.clone()?;
        Ok(Bindings { subst })
    }

    // Whether others share it.
    pub(crate) fn is_shared(&self) -> bool {
        Rc::strong_count(&self.subst) > 1
    }

    // Whether the other is this one, shared.
    pub(crate) fn is_same(&self, other: &Bindings) -> bool {
        Rc::ptr_eq(&self.subst, &other.subst)
    }

    // The most general unifier of the pairs. Where there are none, it is this substitution, shared.
    pub(crate) fn unified(
        &self,
        alloc: Global,
        pairs: &[(Term, Term)],
    ) -> Result<Option<Bindings>, Memory>
        ensures { IfOk result (λ r. r ≡ mgu pairs.now self.now) }
    {
        if pairs.is_empty() {
            return Ok(Some(self.shared()?));
        }
        match unify(alloc, pairs, self.subst())? {
            Some(subst) => Ok(Some(Bindings::new(alloc, subst)?)),
            None => Ok(None),
        }
    }
}
