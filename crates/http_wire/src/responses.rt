// The responses of a stream, as a client reads them.
ghost use Rattle.std.specs.Prelude.{◌≡◌, ◌≤◌, [], length, map, drop, All, IfOk, IfErr, Err};
ghost use Rattle.outside.specs.Faults.{Rose};
ghost use Rattle.httparse.specs.Spans.{header_bytes, IsHeaderWithin};
ghost use Rattle.http_wire.specs.declared.responses.AnswerStop.TheVariants as stop;
ghost use Rattle.http_wire.specs.declared.responses.GotResponse.TheVariants.{ReadFault};
ghost use Rattle.http_wire.specs.Reads.{Reads, Through};
ghost use Rattle.http_wire.specs.Answered.{answer_length_of, FirstAnswer, AnswerStops, IsNextAnswer};

use crate::buffer::Buffer;
use crate::framing::{Single, number, only_value};
use crate::head::{FIELD_LIMIT, Heads, Looked, front, read_head};
use crate::message::{HttpResponse, Stop, Why};
use crate::requests::copied;
use httparse::Status;
use httparse::spans::{EMPTY_HEADER_SPAN, HeaderSpan, ResponseSpans, parse_response};
use outside::Source;
use std::alloc::Global;
use std::marker::Model;
use term_core::Memory;

/// The most bytes that the body of a response has.
const ANSWER_LIMIT: u64 = 4_194_304;

/// What the next response is.
#[derive(Drop)]
pub enum GotResponse {
    /// A response, of which the status and the body are read.
    Response(HttpResponse),
    /// What came isn't a response. The place is 0 for its head, and where the stream ends within its
    /// body the number of the body's bytes that came.
    Bad { at: u64 },
    /// The source failed.
    ReadFault,
    /// Want of memory.
    Memory,
}

/// Why the reading of a response stops.
#[derive(Clone, Copy, Debug, Drop, PartialEq, Eq)]
pub enum AnswerStop {
    Bad { at: u64 },
    ReadFault,
    Memory,
}

impl From<AnswerStop> for GotResponse {
    ghost use Rattle.std.specs.Prelude.{◌≡◌};
    ghost use Rattle.http_wire.specs.Answered.{answer_of};

    ghost from_gives = { λ stop got. got ≡ answer_of stop };

    fn from(stop: AnswerStop) -> GotResponse {
        match stop {
            AnswerStop::Bad { at } => GotResponse::Bad { at },
            AnswerStop::ReadFault => GotResponse::ReadFault,
            AnswerStop::Memory => GotResponse::Memory,
        }
    }
}

/// Heads of responses.
pub struct ResponseHeads;

impl Heads for ResponseHeads {
    ghost use Rattle.httparse.specs.Grammar.{HasNoResponse};
    ghost use Rattle.http_wire.specs.Answered.{IsResponseHeadAt, RefusesResponseHead};
    ghost use Rattle.http_wire.specs.AnswerLaws.{response_no_head, response_none_open};

    type Spans = ResponseSpans;

    ghost is_head = { IsResponseHeadAt };

    ghost none = { HasNoResponse };

    ghost may = { HasNoResponse };

    ghost refused = { RefusesResponseHead };

    ghost no_head = { response_no_head };

    ghost none_open = { response_none_open };

    fn look(bytes: &[u8], fields: &mut [HeaderSpan]) -> Looked<ResponseSpans> {
        match parse_response(bytes, fields) {
            Ok(Status::Complete(head)) => Looked::Head(head),
            Ok(Status::Partial) => {
                if bytes.len() == 16_384 {
                    Looked::Refused(Why::HeadTooLong)
                } else {
                    Looked::Open
                }
            }
            Err(_) => Looked::Refused(Why::BadHead),
        }
    }
}

/// How long the body of a response is; `None` where its fields don't say it, or it is too long.
fn answer_length(bytes: &[u8], fields: &[HeaderSpan]) -> Option<usize>
    requires { All (IsHeaderWithin (length bytes.now)) fields.now }
    ensures { result ≡ answer_length_of (map (header_bytes bytes.now) fields.now) }
{
    match only_value(bytes, fields, b"content-length") {
        Single::One(value) => match number(value.of(bytes)) {
            Some(length) if length <= ANSWER_LIMIT => Some(length as usize),
            _ => None,
        },
        _ => None,
    }
}

/// The response at the front of the bytes held and those that come, and how many bytes it has.
fn read_response<S: Source>(
    alloc: Global,
    buffer: &mut Buffer,
    src: &mut S,
) -> Result<(HttpResponse, usize), AnswerStop>
    ensures reads { Reads S.left S.faults S.reads src.old src.new buffer.old buffer.new }
    ensures ok { IfOk result (λ r. (r.1 ≤ length buffer.new) × FirstAnswer buffer.new r.0 (drop r.1 buffer.new)) }
    ensures err { IfErr result (λ e. AnswerStops buffer.new e (S.left src.new)) }
    ensures cause { result ≡ Err stop.ReadFault → Rose (S.faults src.old) (S.faults src.new) }
{
    let mut fields = [EMPTY_HEADER_SPAN; FIELD_LIMIT];
    let head = match read_head::<ResponseHeads, S>(buffer, src, &mut fields) {
        Ok(head) => head,
        Err(stop) => match stop {
            Stop::ReadFault => return Err(AnswerStop::ReadFault),
            Stop::Memory => return Err(AnswerStop::Memory),
            _ => return Err(AnswerStop::Bad { at: 0 }),
        },
    };
    let Some(length) = answer_length(front(buffer.bytes()), &fields[..head.headers]) else {
        return Err(AnswerStop::Bad { at: 0 });
    };
    let end = head.len + length;
    match buffer.fill_to(src, end) {
        Ok(()) => {}
        Err(stop) => match stop {
            Stop::ReadFault => return Err(AnswerStop::ReadFault),
            Stop::Memory => return Err(AnswerStop::Memory),
            _ => {
                let came = buffer.bytes().len() - head.len;
                return Err(AnswerStop::Bad { at: came as u64 });
            }
        },
    }
    let Ok(body) = copied(alloc, &buffer.bytes()[head.len..end]) else {
        return Err(AnswerStop::Memory);
    };
    let response = HttpResponse {
        status: head.code,
        allow: None,
        close: false,
        body,
    };
    Ok((response, end))
}

/// Reads the responses of a stream, one after the other, and keeps what it has read beyond them, which
/// contracts see.
#[derive(Drop)]
pub struct Responses {
    alloc: Global,
    buffer: Buffer,
}

impl Model for Responses {
    ghost use Rattle.std.specs.Prelude.{ℕ, List};

    ghost Value = { List ℕ };

    ghost view = { λ r. r.buffer };
}

impl Responses {
    /// A reader that has read nothing. `Err` is want of memory.
    pub fn new(alloc: Global) -> Result<Responses, Memory>
        ensures { IfOk result (λ r. r ≡ []) }
    {
        Ok(Responses {
            alloc,
            buffer: Buffer::new(alloc)?,
        })
    }

    /// The next response of the stream.
    ///
    /// Nothing is read past the response but what the reader holds for the next call. `Bad` comes where
    /// what comes isn't a response, and `ReadFault` only where the source's count of faults rose.
    pub fn next<S: Source>(&mut self, src: &mut S) -> GotResponse
        ensures next { IsNextAnswer (S.left src.old) (S.left src.new) self.old result self.new }
        ensures reads { Through S.reads src.old src.new }
        ensures counted { S.faults src.old ≤ S.faults src.new }
        ensures cause { result ≡ ReadFault → Rose (S.faults src.old) (S.faults src.new) }
    {
        match read_response(self.alloc, &mut self.buffer, src) {
            Ok((response, end)) => {
                self.buffer.advance(end);
                GotResponse::Response(response)
            }
            Err(stop) => GotResponse::from(stop),
        }
    }
}
