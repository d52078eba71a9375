// The parts of a request's head.
ghost use Rattle.std.specs.Prelude.{◌≡◌, IfOk, IfErr};
ghost use Rattle.httparse.specs.Grammar.{RequestHead};
ghost use Rattle.httparse.specs.Spans.{IsRequestAt};
ghost use Rattle.http_wire.specs.Requests.{IsRequestHeadAt, IsPartsOf, PartsStop};

use crate::framing::{body_length, closes};
use crate::message::Stop;
use http::Method;
use http::method::MethodError;
use httparse::spans::{HeaderSpan, RequestSpans};
use std::alloc::Global;
use std::str;
use term_core::Text;

/// A request without its body.
#[derive(Drop)]
pub struct Parts {
    pub method: Method,
    pub target: Text,
    pub close: bool,
    pub length: usize,
}

/// The parts of a head, or why they aren't read.
pub fn request_parts(
    alloc: Global,
    bytes: &[u8],
    fields: &[HeaderSpan],
    head: &RequestSpans,
) -> Result<Parts, Stop>
    requires { IsRequestHeadAt bytes.now fields.now head.now }
    ensures ok { IfOk result (λ p. (h : RequestHead) × IsRequestAt bytes.now fields.now head.now h × IsPartsOf h p) }
    ensures err { IfErr result (λ e. (h : RequestHead) × IsRequestAt bytes.now fields.now head.now h × PartsStop h e) }
{
    let named = &fields[..head.headers];
    let length = match body_length(bytes, head.method, named) {
        Ok(length) => length,
        Err(why) => return Err(Stop::Refused(why)),
    };
    let close = closes(bytes, head.version, named);
    let method = match Method::from_bytes(alloc, head.method.of(bytes)) {
        Ok(method) => method,
        Err(error) => match error {
            MethodError::Invalid => unreachable!(),
            MethodError::OutOfMemory => return Err(Stop::Memory),
        },
    };
    let Ok(target) = str::from_utf8(head.path.of(bytes)) else {
        unreachable!()
    };
    let Ok(target) = Text::from_str(alloc, target) else {
        return Err(Stop::Memory);
    };
    Ok(Parts {
        method,
        target,
        close,
        length,
    })
}
