// Words from a list.
ghost use Rattle.std.specs.Prelude.{◌≡◌, IfOk};

use crate::Entropy;
use std::alloc::Global;
use std::marker::Model;
use term_core::Memory;

/// An entropy that gives the words of a list in order, which contracts see as the words to come.
#[derive(Drop)]
pub struct SeqEntropy {
    words: Vec<u64>,
    at: usize,
}

impl Model for SeqEntropy {
    ghost use Rattle.std.specs.Prelude.{ℕ, List, drop};

    ghost Value = { List ℕ };

    ghost view = { λ e. drop e.at e.words.items };
}

impl SeqEntropy {
    /// These words, in order. `Err` is want of memory.
    pub fn new(alloc: Global, words: &[u64]) -> Result<SeqEntropy, Memory>
        ensures { IfOk result (λ e. e ≡ words.now) }
    {
        Ok(SeqEntropy {
            words: words.to_vec(alloc)?,
            at: 0,
        })
    }
}

impl Entropy for SeqEntropy {
    ghost use Rattle.std.specs.Prelude.{Some};

    ghost ahead = { λ words. Some words };

    fn word(&mut self) -> u64 {
        if self.at >= self.words.len() {
            return 0;
        }
        let word = self.words[self.at];
        self.at += 1;
        word
    }
}
