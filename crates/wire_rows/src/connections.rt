// Tables of bytes on one connection: the requests and the responses of a stream, and what is written.
ghost use Rattle.std.specs.Prelude.{◌≤◌};

use crate::row::{Row, bytes_of};
use crate::stop::Stop;
use http::Method;
use http_wire::{
    Got, GotResponse, HttpRequest, HttpResponse, Requests, Responses, get_bytes, post_bytes,
    response_bytes,
};
use outside::MemSource;
use std::alloc::Global;
use term_core::Bytes;

/// How many bytes a read gives: one, a few, or all that are asked for.
const SINGLE: u64 = 1;

const FEW: u64 = 7;

const ALL: u64 = 65_536;

/// The text of a body; of one that is longer than 80 bytes only its length.
fn body_text(alloc: Global, body: &Bytes) -> Result<String, Stop> {
    if body.len() > 80 {
        return Ok(format!(in alloc; "{} bytes", body.len())?);
    }
    let copy = body.copied(alloc)?;
    String::from_utf8(copy.into_vec()).map_err(|_| Stop::Malformed)
}

/// A request on one line.
fn request_text(alloc: Global, request: &HttpRequest) -> Result<String, Stop> {
    let method = request.method.as_str();
    let target = request.target.as_str();
    let then = if request.close { "close" } else { "keep" };
    let body = body_text(alloc, &request.body)?;
    Ok(format!(in alloc; "{method} {target} {then} {body}; ")?)
}

/// The requests of a stream that comes in pieces, and why they end.
fn requests_in(alloc: Global, stream: &[u8], piece: u64) -> Result<String, Stop>
    requires { 1 ≤ piece }
{
    let mut source = MemSource::new(alloc, stream, piece, &[])?;
    let mut requests = Requests::new(alloc)?;
    let mut text = String::new(alloc);
    for _ in 0..=stream.len() {
        match requests.next(&mut source) {
            Got::Request(request) => text.push_str(request_text(alloc, &request)?.as_str())?,
            Got::Refused(why) => {
                text.push_str(format!(in alloc; "{why:?}")?.as_str())?;
                return Ok(text);
            }
            Got::End => {
                text.push_str("end")?;
                return Ok(text);
            }
            Got::ReadFault => return Err(Stop::Malformed),
            Got::Memory => return Err(Stop::Memory),
        }
    }
    Err(Stop::Malformed)
}

/// The responses of a stream that comes in pieces, and where they end.
fn responses_in(alloc: Global, stream: &[u8], piece: u64) -> Result<String, Stop>
    requires { 1 ≤ piece }
{
    let mut source = MemSource::new(alloc, stream, piece, &[])?;
    let mut responses = Responses::new(alloc)?;
    let mut text = String::new(alloc);
    for _ in 0..=stream.len() {
        match responses.next(&mut source) {
            GotResponse::Response(response) => {
                let body = body_text(alloc, &response.body)?;
                let line = format!(in alloc; "{} {body}; ", response.status)?;
                text.push_str(line.as_str())?;
            }
            GotResponse::Bad { at } => {
                text.push_str(format!(in alloc; "bad at {at}")?.as_str())?;
                return Ok(text);
            }
            GotResponse::ReadFault => return Err(Stop::Malformed),
            GotResponse::Memory => return Err(Stop::Memory),
        }
    }
    Err(Stop::Malformed)
}

/// What came of the same stream three times, where that is the same.
fn agreed(single: String, few: &str, all: &str) -> Result<String, Stop> {
    if single.as_str() != few || single.as_str() != all {
        return Err(Stop::Pieces);
    }
    Ok(single)
}

/// The requests of a stream, however it is cut.
pub(crate) fn requests_of(alloc: Global, stream: &str) -> Result<String, Stop> {
    let bytes = bytes_of(alloc, stream)?;
    let bytes = bytes.as_slice();
    let single = requests_in(alloc, bytes, SINGLE)?;
    let few = requests_in(alloc, bytes, FEW)?;
    let all = requests_in(alloc, bytes, ALL)?;
    agreed(single, &few, &all)
}

/// The responses of a stream, however it is cut.
pub(crate) fn responses_of(alloc: Global, stream: &str) -> Result<String, Stop> {
    let bytes = bytes_of(alloc, stream)?;
    let bytes = bytes.as_slice();
    let single = responses_in(alloc, bytes, SINGLE)?;
    let few = responses_in(alloc, bytes, FEW)?;
    let all = responses_in(alloc, bytes, ALL)?;
    agreed(single, &few, &all)
}

/// The bytes as a text.
fn of_bytes(bytes: Bytes) -> Result<String, Stop> {
    String::from_utf8(bytes.into_vec()).map_err(|_| Stop::Malformed)
}

/// The method that a field names, or none where it is empty.
fn method_of(alloc: Global, field: &str) -> Result<Option<Method>, Stop> {
    if field.is_empty() {
        return Ok(None);
    }
    match Method::from_bytes(alloc, field.as_bytes()) {
        Ok(method) => Ok(Some(method)),
        Err(_) => Err(Stop::Malformed),
    }
}

/// The bytes of a response of a status, a method that is allowed, whether it closes, and a body.
pub(crate) fn response_of(alloc: Global, row: &Row) -> Result<String, Stop> {
    let status = row.field(0).parse::<u16>().map_err(|_| Stop::Malformed)?;
    let allow = method_of(alloc, row.field(1))?;
    let mut body = Bytes::new(alloc);
    body.append(row.field(3).as_bytes())?;
    let response = HttpResponse {
        status,
        allow,
        close: row.field(2) == "close",
        body,
    };
    of_bytes(response_bytes(alloc, &response)?)
}

/// The bytes of a client's request of a method, a target and a body.
pub(crate) fn asking_of(alloc: Global, row: &Row) -> Result<String, Stop> {
    let target = row.field(1);
    match row.field(0) {
        "GET" => of_bytes(get_bytes(alloc, target)?),
        "POST" => of_bytes(post_bytes(alloc, target, row.field(2).as_bytes())?),
        _ => Err(Stop::Malformed),
    }
}
