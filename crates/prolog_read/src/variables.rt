// The numbers of a term's variables.
ghost use Rattle.std.specs.Prelude.{◌≡◌, suc, IfOk, OnOk};
ghost use Rattle.prolog_read.specs.Variables.{start, number_of, with_variable};
ghost use Rattle.prolog_read.specs.Views.{numbering, HasIndex};

use std::alloc::Global;
use std::collections::BTreeMap;
use term_core::{List, Memory, Name};

/// The names of the variables so far, each with its number, and the number of the next new variable.
#[derive(Debug, Drop)]
pub(crate) struct Variables {
    names: List<(Name, u64)>,
    // The number of each name, for a text may have a million of them.
    index: BTreeMap<String, u64>,
    next: u64,
}

impl Variables {
    pub(crate) fn new(alloc: Global) -> Variables
        ensures numbering { numbering result ≡ start }
        ensures index { HasIndex result }
    {
        Variables {
            names: List::new(alloc),
            index: BTreeMap::new(alloc),
            next: 0,
        }
    }

    /// The names with their numbers.
    pub(crate) fn into_names(self) -> List<(Name, u64)>
        ensures { result ≡ (numbering self).names }
    {
        let Variables {
            names,
            index,
            next: _,
        } = self;
        drop(index);
        names
    }

    /// The number of the variable that is written so. `_` is a new one each time.
    pub(crate) fn number(&mut self, alloc: Global, word: &str) -> Result<u64, Memory>
        requires { HasIndex self.old }
        ensures number { IfOk result (λ n. n ≡ number_of (numbering self.old) word.now) }
        ensures after { OnOk result (numbering self.new ≡ with_variable (numbering self.old) word.now) }
        ensures index { OnOk result (HasIndex self.new) }
    {
        if word == "_" {
            return self.take_next();
        }
        if let Some(number) = self.index.get(word) {
            return Ok(*number);
        }
        let number = self.take_next()?;
        self.index.insert(String::from_str(alloc, word)?, number)?;
        self.names.push((Name::new(alloc, word)?, number))?;
        Ok(number)
    }

    fn take_next(&mut self) -> Result<u64, Memory>
        ensures { IfOk result (λ n. (n ≡ self.old.next) × (self.new ≡ record self.old { next = suc n })) }
    {
        let number = self.next;
        self.next = number.checked_add(1).ok_or(Memory)?;
        Ok(number)
    }
}
