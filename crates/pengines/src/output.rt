// Writes to a sink, which may take a piece in parts.
ghost use Rattle.std.specs.Prelude.{◌≡◌, ◌≤◌, IfOk, OnOk, OnErr};
ghost use Rattle.std.specs.Io.KnownBytes.{Appends};
ghost use Rattle.outside.specs.Faults.{Rose};
ghost use Rattle.pengines.specs.Output.{AppendsPart, Says, line};

use outside::{Sink, Wrote};
use term_core::Memory;

/// A write failed: the sink's count of faults rose.
#[derive(Clone, Copy, Debug, PartialEq, Eq)]
pub struct WriteFault;

/// Writes all of the bytes, or a first part of them where the sink fails.
pub fn write_all<K: Sink>(sink: &mut K, bytes: &[u8]) -> Result<(), WriteFault>
    ensures ok { OnOk result (Appends (K.taken sink.old) (K.taken sink.new) bytes.now) }
    ensures part { OnErr result (AppendsPart (K.taken sink.old) (K.taken sink.new) bytes.now) }
    ensures fault { OnErr result (Rose (K.faults sink.old) (K.faults sink.new)) }
    ensures counted { K.faults sink.old ≤ K.faults sink.new }
{
    let mut rest = bytes;
    while !rest.is_empty() {
        match sink.write(rest) {
            Wrote::Took(count) => rest = &rest[count..],
            Wrote::Failed => return Err(WriteFault),
        }
    }
    Ok(())
}

/// Writes a text whose loss changes nothing.
pub fn say<K: Sink>(sink: &mut K, text: &[u8])
    ensures { Says K.taken K.faults sink.old sink.new text.now }
{
    let _ = write_all(sink, text);
}

/// A text and its line end.
pub fn with_line_end(mut text: Vec<u8>) -> Result<Vec<u8>, Memory>
    ensures { IfOk result (λ l. l.items ≡ line text.items) }
{
    text.push(b'\n')?;
    Ok(text)
}
