// The frames of a search.
ghost use Rattle.std.specs.Prelude.{◌≡◌, true, OnOk, IfNone, IfSome};
ghost use Rattle.solve_model.specs.Run.{World, Ran, after, cut_to};
ghost use Rattle.solve_model.specs.Search.{resumed, through};
ghost use Rattle.solve_model.specs.Dropping.{is_above as is_above_level};

use crate::search::{Frame, Stack};
use term_core::Memory;

// Puts a frame on the stack: at the end of a run it acts first.
pub(crate) fn push(stack: &mut Stack, frame: Frame) -> Result<(), Memory>
    ensures { OnOk result ((w : World) (r : Ran) → resumed w stack.new.frames.items r ≡ resumed w stack.old.frames.items (through w frame r)) }
{
    stack.frames.push(frame)?;
    Ok(())
}

// Whether the frame lets every end of a run pass after a cut to the level.
fn is_above(frame: &Frame, level: u64) -> bool
    ensures { result ≡ is_above_level level frame.now }
{
    match frame {
        Frame::Clauses(_) | Frame::Results(_, _) | Frame::Other(_, _) => true,
        Frame::Cut(other) => level < *other,
        Frame::CutTo(other) => level <= *other,
        Frame::Condition(branch, _) => level < branch.place.level,
        Frame::Catch(_) => false,
        Frame::Collect(_) => false,
    }
}

// What a frame does after a cut to the level: a condition of that level has succeeded, and only stops the cut.
fn settled(frame: Frame, level: u64) -> Frame
    ensures { (w : World) (r : Ran) → through w result (after r (cut_to level)) ≡ through w frame (after r (cut_to level)) }
{
    match frame {
        Frame::Condition(branch, _) if branch.place.level == level => Frame::Cut(level),
        frame => frame,
    }
}

// What is left of a frame after a cut to the level: nothing where it is above the level.
fn kept_frame(frame: Frame, level: u64) -> Option<Frame>
    ensures dropped { IfNone result (is_above_level level frame ≡ true) }
    ensures kept { IfSome result (λ f. (w : World) (r : Ran) → through w f (after r (cut_to level)) ≡ through w frame (after r (cut_to level))) }
{
    if is_above(&frame, level) {
        None
    } else {
        Some(settled(frame, level))
    }
}

// Drops the frames above the level: after a cut to it nothing of them is done.
fn drop_above(stack: &mut Stack, level: u64) -> Result<(), Memory>
    ensures { OnOk result ((w : World) (r : Ran) → resumed w stack.new.frames.items (after r (cut_to level)) ≡ resumed w stack.old.frames.items (after r (cut_to level))) }
{
    while let Some(frame) = stack.frames.pop() {
        if let Some(frame) = kept_frame(frame, level) {
            push(stack, frame)?;
            return Ok(());
        }
    }
    Ok(())
}

// A cut to the level, whose alternatives are dropped.
pub(crate) fn cut_frames(stack: &mut Stack, level: u64) -> Result<(), Memory>
    ensures { OnOk result ((w : World) (r : Ran) → resumed w stack.new.frames.items r ≡ resumed w stack.old.frames.items (after r (cut_to level))) }
{
    drop_above(stack, level)?;
    push(stack, Frame::CutTo(level))?;
    Ok(())
}
