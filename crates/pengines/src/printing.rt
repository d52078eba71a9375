// The lines of a script, one at a time.
ghost use Rattle.std.specs.Prelude.{◌≡◌, [], ◌∷◌, IfOk, MatchOption};
ghost use Rattle.pengines.specs.Printed.{line_told};
ghost use Rattle.request_text.specs.Kept.{script_read};
ghost use Rattle.request_text.specs.Lines.{script_lines};
ghost use Rattle.sandbox_walk.specs.Keeping.{KeepsSandbox};

use crate::leading::{Told, next_told};
use event_core::{Event, Spec, line};
use request_text::{Script, Sent};
use session::Session;
use std::alloc::Global;
use std::collections::VecDeque;
use std::marker::Model;
use term_core::Memory;

/// A script under way, which contracts see as the lines that it still prints.
#[derive(Drop)]
pub struct Printing {
    // None once it was destroyed.
    session: Option<Session>,
    // Whether the line of the event `create` was printed.
    begun: bool,
    lines: VecDeque<Sent>,
}

impl Model for Printing {
    ghost use Rattle.std.specs.Prelude.{ℕ, List};
    ghost use Rattle.pengines.specs.Printed.{left, IsLedOn};

    ghost Value = { List (List ℕ) };

    ghost view = { λ p. left p.session p.begun p.lines.items };

    ghost invariant = { λ p. IsLedOn p.session };
}

impl Printing {
    /// All the lines of a script.
    pub fn new(alloc: Global, script: Script) -> Result<Printing, Memory>
        requires { KeepsSandbox script.spec.program.value }
        ensures { IfOk result (λ p. p ≡ script_lines (script_read script)) }
    {
        let Script { spec, lines } = script;
        let Spec {
            program,
            settings,
            bytes,
            ..
        } = spec;
        let spec = Spec {
            program,
            ask: None,
            settings,
            bytes,
        };
        let session = Session::create(alloc, spec)?;
        Ok(Printing {
            session: Some(session),
            begun: false,
            lines: VecDeque::from(lines.into_vec()),
        })
    }

    /// Runs to the next line, and gives it without its line end; `None` where no line is left.
    /// After `Err`, which is want of memory, the lines are lost.
    pub fn next_line(&mut self, alloc: Global) -> Result<Option<Vec<u8>>, Memory>
        ensures { IfOk result (λ next. MatchOption next
            (self.old ≡ [])
            (λ line. self.old ≡ line.items ∷ self.new)) }
    {
        if !self.begun {
            self.begun = true;
            let text = line(alloc, &Event::Create)?;
            return Ok(Some(text));
        }
        let mut session = self.session.take();
        let told = next_told(&mut session, &mut self.lines)?;
        self.session = session;
        match told {
            Some(told) => Ok(Some(text_of(alloc, &told)?)),
            None => Ok(None),
        }
    }
}

/// The line that tells it, without its line end.
fn text_of(alloc: Global, told: &Told) -> Result<Vec<u8>, Memory>
    ensures { IfOk result (λ t. line_told told.now ≡ t.items) }
{
    match told {
        Told::Event(event) => line(alloc, event),
        Told::Late => Ok(Vec::from_slice(alloc, b"ended")?),
    }
}
