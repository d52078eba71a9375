ghost use Rattle.std.specs.Prelude.{◌≡◌, IfOk};
ghost use Rattle.event_core.specs.declared.settings.Settings.{Settings};
ghost use Rattle.event_core.specs.Standing.{spec_of};
ghost use Rattle.session.specs.Kept.{Refuses, IsLetter};

use crate::node::Node;
use event_core::{Request, refusal};
use program::Program;
use std::alloc::Global;
use std::sync::Arc;
use term_core::{Memory, Term};

// A request that waits, with what its consuming needs: so that takes no memory.
#[derive(Debug, Drop)]
pub(crate) struct Letter {
    pub(crate) node: Node,
    pub(crate) program: Arc<Program>,
    // The error of the goal of an ask that the sandbox refuses.
    pub(crate) refusal: Option<Term>,
}

// The error of the goal of an ask that the sandbox refuses.
fn refusal_at(
    alloc: Global,
    program: &Arc<Program>,
    request: &Request,
) -> Result<Option<Term>, Memory>
    ensures { IfOk result (λ r. (s : Settings) → Refuses (spec_of program.now.value s) request.now r) }
{
    match request {
        Request::Ask(ask) => {
            let refusal = refusal(alloc, program, ask)?;
            Ok(refusal)
        }
        Request::Next(_) => Ok(None),
        Request::Stop => Ok(None),
        Request::Respond(_) => Ok(None),
    }
}

impl Letter {
    pub(crate) fn new(
        alloc: Global,
        program: &Arc<Program>,
        request: Request,
    ) -> Result<Letter, Memory>
        ensures request { IfOk result (λ l. l.node ≡ request) }
        ensures letter { IfOk result (λ l. (s : Settings) → IsLetter program.now.value s l) }
    {
        let refusal = refusal_at(alloc, program, &request)?;
        let program = program.clone()?;
        let node = Node::new(alloc, request)?;
        Ok(Letter {
            node,
            program,
            refusal,
        })
    }
}
