// The head of a message, read from pieces of any size.
ghost use Rattle.std.specs.Prelude.{◌≡◌, ◌<◌, ◌≤◌, ℕ, List, false, length, IfOk, IfErr, Err};
ghost use Rattle.outside.specs.Faults.{Rose};
ghost use Rattle.httparse.specs.declared.spans.HeaderSpan.{HeaderSpan};
ghost use Rattle.http_wire.specs.declared.message.Stop.TheVariants as stop;
ghost use Rattle.http_wire.specs.declared.message.Why.{Why};
ghost use Rattle.http_wire.specs.Limits.{front};
ghost use Rattle.http_wire.specs.Reads.{Reads};
ghost use Rattle.http_wire.specs.Heads.{Looks, EndStops, HeadStops};
ghost use Rattle.http_wire.specs.Endings.{ends_head};

use crate::buffer::Buffer;
use crate::message::{Stop, Why};
use httparse::spans::HeaderSpan;
use outside::Source;

/// The most bytes that a head has.
pub const HEAD_LIMIT: usize = 16_384;

/// The most fields that a head has.
pub const FIELD_LIMIT: usize = 128;

/// What a look at the bytes of a head finds.
#[derive(Clone, Copy, Drop)]
pub enum Looked<S> {
    Head(S),
    /// More bytes may make them a head.
    Open,
    Refused(Why),
}

/// Heads of one kind.
pub trait Heads {
    /// Where the parts of a head are.
    type Spans: Copy;

    /// The bytes begin with a head, whose parts are where the spans say.
    ghost is_head: { List ℕ → List HeaderSpan → Self.Spans → Type 0 };

    /// The bytes don't begin with a head.
    ghost none: { List ℕ → Type 0 };

    /// More bytes may make these a head.
    ghost may: { List ℕ → Type 0 };

    /// No head may come, for this reason.
    ghost refused: { List ℕ → Why → Type 0 };

    /// Looks for a head at the front of the bytes.
    fn look(bytes: &[u8], fields: &mut [HeaderSpan]) -> Looked<Self::Spans>
        requires short { length bytes.now ≤ 16384 }
        requires room { length fields.old ≡ 128 }
        ensures { Looks is_head none may refused bytes.now fields.new result };

    /// A head is a head.
    ghost no_head: { (b : List ℕ) (f : List HeaderSpan) (s : Self.Spans) → is_head b f s → none b → ⊥ };

    /// A head ends in an empty line.
    ghost none_open: { (b : List ℕ) → ends_head b ≡ false → none b };
}

/// The bytes in which a head must lie.
pub fn front(bytes: &[u8]) -> &[u8]
    ensures { result.now ≡ front bytes.now }
{
    if bytes.len() > HEAD_LIMIT {
        &bytes[..HEAD_LIMIT]
    } else {
        bytes
    }
}

/// What the end of the stream means, where no head stands in its bytes.
fn at_end<H: Heads>(bytes: &[u8], fields: &mut [HeaderSpan]) -> Stop
    requires none { H.none bytes.now }
    requires short { length bytes.now < 16384 }
    requires room { length fields.old ≡ 128 }
    ensures { EndStops H.none H.may H.refused bytes.now result }
{
    match H::look(bytes, fields) {
        Looked::Head(_) => unreachable!(),
        Looked::Refused(why) => Stop::Refused(why),
        Looked::Open => {
            if bytes.is_empty() {
                Stop::End
            } else {
                Stop::Refused(Why::Truncated)
            }
        }
    }
}

/// The head at the front of the bytes held and those that come, which are read as far as it needs.
///
/// The bytes are looked at anew where an empty line has ended, where twice as many are held, and where
/// the head is as long as it may be.
pub fn read_head<H: Heads, S: Source>(
    buffer: &mut Buffer,
    src: &mut S,
    fields: &mut [HeaderSpan],
) -> Result<H::Spans, Stop>
    requires { length fields.old ≡ 128 }
    ensures reads { Reads S.left S.faults S.reads src.old src.new buffer.old buffer.new }
    ensures ok { IfOk result (λ spans. H.is_head (front buffer.new) fields.new spans) }
    ensures err { IfErr result (λ e. HeadStops H.none H.may H.refused (S.left src.new) buffer.new e) }
    ensures cause { result ≡ Err stop.ReadFault → Rose (S.faults src.old) (S.faults src.new) }
{
    'looks: loop {
        match H::look(front(buffer.bytes()), fields) {
            Looked::Head(spans) => return Ok(spans),
            Looked::Refused(why) => return Err(Stop::Refused(why)),
            Looked::Open => match buffer.fill_head(src, HEAD_LIMIT) {
                Ok(()) => {}
                Err(stop) => match stop {
                    Stop::End => return Err(at_end::<H>(buffer.bytes(), fields)),
                    _ => return Err(stop),
                },
            },
        }
    }
}
