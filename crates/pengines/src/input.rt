// Reads a source to its end.
ghost use Rattle.std.specs.Prelude.{◌≤◌, ◌<◌, length, IfOk, IsErrOf};
ghost use Rattle.outside.specs.Faults.{Rose};
ghost use Rattle.pengines.specs.Input.{ReadsAll, max_input};
ghost use Rattle.pengines.specs.Session.{IsTooLong};

use outside::{ReadGot, Source};
use std::alloc::{AllocError, Global};

/// The longest input in bytes.
const MAX_INPUT: usize = 16_777_216;

/// How often a source is read for one input. The longest input is met first, since each read gives
/// a byte at least.
const MAX_READS: u64 = 1 << 32;

/// Why an input wasn't read to its end.
#[derive(Clone, Copy, Debug, PartialEq, Eq)]
pub enum InputStop {
    /// It has more than 16,777,216 bytes.
    TooLong,
    /// The source failed: its count of faults rose.
    ReadFault,
    /// Want of memory.
    Memory,
}

impl From<AllocError> for InputStop {
    ghost use Rattle.pengines.specs.declared.input.InputStop.TheVariants.{Memory};
    ghost use Rattle.std.specs.Prelude.{◌≡◌};

    ghost from_gives = { λ _ e. e ≡ Memory };

    fn from(_: AllocError) -> InputStop {
        InputStop::Memory
    }
}

/// All the bytes that a source has left.
pub fn read_input<S: Source>(alloc: Global, src: &mut S) -> Result<Vec<u8>, InputStop>
    ensures all { IfOk result (λ input. ReadsAll (S.left src.old) (S.left src.new) input.items) }
    ensures size { IfOk result (λ input. length input.items ≤ max_input) }
    ensures too_long { IsErrOf result InputStop.TooLong → IsTooLong S.left src.old src.new }
    ensures read_fault { IsErrOf result InputStop.ReadFault →
        Rose (S.faults src.old) (S.faults src.new) }
{
    let mut input = Vec::new(alloc);
    let mut buf = [0u8; 4096];
    for turn in 0..MAX_READS {
        match src.read(&mut buf) {
            ReadGot::Got(count) => {
                if count > MAX_INPUT - input.len() {
                    return Err(InputStop::TooLong);
                }
                input.extend_from_slice(&buf[..count])?;
            }
            ReadGot::End => return Ok(input),
            ReadGot::Failed => return Err(InputStop::ReadFault),
        }
    }
    Err(InputStop::TooLong)
}
