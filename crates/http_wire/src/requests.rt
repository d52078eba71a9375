// The requests of a stream.
ghost use Rattle.std.specs.Prelude.{◌≡◌, ◌≤◌, [], true, false, length, drop, IfOk, IfErr, Err};
ghost use Rattle.outside.specs.Faults.{Rose};
ghost use Rattle.http_wire.specs.declared.message.Stop.TheVariants as stop;
ghost use Rattle.http_wire.specs.declared.message.Got.TheVariants.{End, ReadFault};
ghost use Rattle.http_wire.specs.Reads.{Reads, Through};
ghost use Rattle.http_wire.specs.Heard.{First, Stops, IsNext};
ghost use Rattle.http_wire.specs.Requests.{is_last};

use crate::buffer::Buffer;
use crate::head::{FIELD_LIMIT, Heads, Looked, front, read_head};
use crate::message::{Got, HttpRequest, Stop, Why};
use crate::parts::request_parts;
use httparse::spans::{EMPTY_HEADER_SPAN, HeaderSpan, RequestSpans, parse_request};
use httparse::{Error, Status};
use outside::Source;
use std::alloc::Global;
use std::marker::Model;
use term_core::{Bytes, Memory};

/// Heads of requests.
pub struct RequestHeads;

impl Heads for RequestHeads {
    ghost use Rattle.httparse.specs.Grammar.{HasNoRequest, MayBecomeRequest};
    ghost use Rattle.http_wire.specs.Requests.{IsRequestHeadAt, RefusesRequestHead};
    ghost use Rattle.http_wire.specs.HeadLaws.{request_no_head, request_none_open};

    type Spans = RequestSpans;

    ghost is_head = { IsRequestHeadAt };

    ghost none = { HasNoRequest };

    ghost may = { MayBecomeRequest };

    ghost refused = { RefusesRequestHead };

    ghost no_head = { request_no_head };

    ghost none_open = { request_none_open };

    fn look(bytes: &[u8], fields: &mut [HeaderSpan]) -> Looked<RequestSpans> {
        match parse_request(bytes, fields) {
            Ok(Status::Complete(head)) => Looked::Head(head),
            Ok(Status::Partial) => {
                if bytes.len() == 16_384 {
                    Looked::Refused(Why::HeadTooLong)
                } else {
                    Looked::Open
                }
            }
            Err(error) => match error {
                Error::TooManyHeaders => Looked::Refused(Why::HeadTooLong),
                _ => Looked::Refused(Why::BadHead),
            },
        }
    }
}

/// These bytes in memory of their own.
pub fn copied(alloc: Global, bytes: &[u8]) -> Result<Bytes, Memory>
    ensures { IfOk result (λ b. b ≡ bytes.now) }
{
    let mut copy = Bytes::new(alloc);
    copy.append(bytes)?;
    Ok(copy)
}

/// The request at the front of the bytes held and those that come, and how many bytes it has.
fn read_request<S: Source>(
    alloc: Global,
    buffer: &mut Buffer,
    src: &mut S,
) -> Result<(HttpRequest, usize), Stop>
    ensures reads { Reads S.left S.faults S.reads src.old src.new buffer.old buffer.new }
    ensures ok { IfOk result (λ r. (r.1 ≤ length buffer.new) × First buffer.new r.0 (drop r.1 buffer.new)) }
    ensures err { IfErr result (λ e. Stops buffer.new e (S.left src.new)) }
    ensures cause { result ≡ Err stop.ReadFault → Rose (S.faults src.old) (S.faults src.new) }
{
    let mut fields = [EMPTY_HEADER_SPAN; FIELD_LIMIT];
    let head = read_head::<RequestHeads, S>(buffer, src, &mut fields)?;
    let parts = request_parts(alloc, front(buffer.bytes()), &fields, &head)?;
    let end = head.len + parts.length;
    match buffer.fill_to(src, end) {
        Ok(()) => {}
        Err(stop) => match stop {
            Stop::End => return Err(Stop::Refused(Why::Truncated)),
            _ => return Err(stop),
        },
    }
    let Ok(body) = copied(alloc, &buffer.bytes()[head.len..end]) else {
        return Err(Stop::Memory);
    };
    let request = HttpRequest {
        method: parts.method,
        target: parts.target,
        close: parts.close,
        body,
    };
    Ok((request, end))
}

/// Reads the requests of a stream, one after the other, and keeps what it has read beyond them.
#[derive(Drop)]
pub struct Requests {
    alloc: Global,
    buffer: Buffer,
    over: bool,
}

impl Model for Requests {
    ghost use Rattle.http_wire.specs.Requests.{Reading};

    ghost Value = { Reading };

    ghost view = { λ r. record { held = r.buffer; over = r.over } };
}

impl Requests {
    /// A reader that has read nothing. `Err` is want of memory.
    pub fn new(alloc: Global) -> Result<Requests, Memory>
        ensures { IfOk result (λ r. r ≡ record { held = []; over = false }) }
    {
        Ok(Requests {
            alloc,
            buffer: Buffer::new(alloc)?,
            over: false,
        })
    }

    /// The next request of the stream.
    ///
    /// Nothing is read past the request but what the reader holds for the next call. `End` comes where
    /// the stream ends behind a request, `Refused` where what comes isn't a request, and `ReadFault`
    /// only where the source's count of faults rose. After any answer but `Request` the reader answers
    /// `End`, and reads no more.
    pub fn next<S: Source>(&mut self, src: &mut S) -> Got
        ensures next { self.old.over ≡ false → IsNext (S.left src.old) (S.left src.new) self.old.held result self.new.held }
        ensures over { self.old.over ≡ true → (result ≡ End) × (src.new ≡ src.old) }
        ensures last { self.new.over ≡ is_last result }
        ensures reads { Through S.reads src.old src.new }
        ensures counted { S.faults src.old ≤ S.faults src.new }
        ensures cause { result ≡ ReadFault → Rose (S.faults src.old) (S.faults src.new) }
    {
        if self.over {
            return Got::End;
        }
        match read_request(self.alloc, &mut self.buffer, src) {
            Ok((request, end)) => {
                self.buffer.advance(end);
                Got::Request(request)
            }
            Err(stop) => {
                self.over = true;
                Got::from(stop)
            }
        }
    }
}
