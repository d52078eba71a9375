// The bytes of responses, and of a client's requests.
ghost use Rattle.std.specs.Prelude.{◌≡◌, IfOk, string_bytes};
ghost use Rattle.http_wire.specs.Texts.{reason, allow_line, close_line, head_of, response_head, response_text, post_head, post_text, get_text};

use crate::message::HttpResponse;
use http::Method;
use std::alloc::Global;
use term_core::{Bytes, Memory};

/// The reason that stands beside a status.
fn reason(status: u16) -> &'static str
    ensures { result.now ≡ reason status }
{
    match status {
        200 => "OK",
        400 => "Bad Request",
        404 => "Not Found",
        405 => "Method Not Allowed",
        411 => "Length Required",
        413 => "Content Too Large",
        429 => "Too Many Requests",
        431 => "Request Header Fields Too Large",
        503 => "Service Unavailable",
        _ => "",
    }
}

/// The field that names the method which is allowed.
fn allow_line(alloc: Global, allow: &Option<Method>) -> Result<String, Memory>
    ensures { IfOk result (λ s. string_bytes s ≡ allow_line allow.now) }
{
    match allow {
        Some(method) => Ok(format!(in alloc; "Allow: {}\r\n", method.as_str())?),
        None => Ok(String::new(alloc)),
    }
}

/// The field that closes the connection.
fn close_line(close: bool) -> &'static str
    ensures { result.now ≡ close_line close }
{
    if close { "Connection: close\r\n" } else { "" }
}

/// The head of a response of these parts.
fn head_of(
    alloc: Global,
    status: u16,
    why: &str,
    length: usize,
    allow: &str,
    close: &str,
) -> Result<String, Memory>
    ensures { IfOk result (λ s. string_bytes s ≡ head_of status why.now length allow.now close.now) }
{
    Ok(format!(in alloc;
        "HTTP/1.1 {status} {why}\r\nContent-Type: application/json\r\nContent-Length: {length}\r\n{allow}{close}\r\n"
    )?)
}

/// The head of a response.
fn response_head(alloc: Global, response: &HttpResponse) -> Result<String, Memory>
    ensures { IfOk result (λ s. string_bytes s ≡ response_head response.now) }
{
    let allow = allow_line(alloc, &response.allow)?;
    let why = reason(response.status);
    let length = response.body.len();
    let close = close_line(response.close);
    let head = head_of(alloc, response.status, why, length, allow.as_str(), close)?;
    Ok(head)
}

/// The bytes of a response, with its reason, type, length, for a status that names one the method which
/// is allowed, and where the connection is closed that it is. `Err` is want of memory.
pub fn response_bytes(alloc: Global, response: &HttpResponse) -> Result<Bytes, Memory>
    ensures { IfOk result (λ b. b ≡ response_text response.now) }
{
    let head = response_head(alloc, response)?;
    let mut bytes = Bytes::from_vec(head.into_bytes());
    bytes.append(response.body.as_slice())?;
    Ok(bytes)
}

/// The head of a client's POST.
fn post_head(alloc: Global, target: &str, length: usize) -> Result<String, Memory>
    ensures { IfOk result (λ s. string_bytes s ≡ post_head target.now length) }
{
    Ok(format!(in alloc;
        "POST {target} HTTP/1.1\r\nHost: pengines\r\nContent-Length: {length}\r\n\r\n"
    )?)
}

/// The bytes of a client's POST. `Err` is want of memory.
pub fn post_bytes(alloc: Global, target: &str, body: &[u8]) -> Result<Bytes, Memory>
    ensures { IfOk result (λ b. b ≡ post_text target.now body.now) }
{
    let head = post_head(alloc, target, body.len())?;
    let mut bytes = Bytes::from_vec(head.into_bytes());
    bytes.append(body)?;
    Ok(bytes)
}

/// The bytes of a client's GET. `Err` is want of memory.
pub fn get_bytes(alloc: Global, target: &str) -> Result<Bytes, Memory>
    ensures { IfOk result (λ b. b ≡ get_text target.now) }
{
    let head = format!(in alloc; "GET {target} HTTP/1.1\r\nHost: pengines\r\n\r\n")?;
    Ok(Bytes::from_vec(head.into_bytes()))
}
