// What a request asks, or what it is answered where it is refused.
use crate::row::{Row, bytes_of};
use crate::stop::Stop;
use http::Method;
use http_wire::{HttpRequest, HttpResponse};
use pengine_id::Id;
use routes::{Asked, Creation, Format, Refusal, Routes, route};
use std::alloc::Global;
use term_core::Text;

/// A text that may be given, or `-`.
fn or_none(given: &Option<Text>) -> &str {
    match given {
        Some(text) => text.as_str(),
        None => "-",
    }
}

fn yes_or_no(flag: bool) -> &'static str {
    if flag { "yes" } else { "no" }
}

fn format_name(format: Format) -> &'static str {
    match format {
        Format::Json => "json",
        Format::JsonS => "json-s",
    }
}

/// What a creation asks, on one line.
fn creation_text(alloc: Global, asked: &Creation) -> Result<String, Stop> {
    let app = asked.app.name();
    let chunk = asked.settings.chunk;
    let limit = asked.settings.limit;
    let destroys = yes_or_no(asked.settings.destroys);
    let names = yes_or_no(asked.settings.names);
    let numbers = format!(in alloc; "{app} {chunk} {destroys} {limit} {names}")?;
    let ask = or_none(&asked.ask);
    let template = or_none(&asked.template);
    let source = asked.src_text.as_str();
    Ok(format!(in alloc; "create {numbers} [{ask}] [{template}] [{source}]")?)
}

/// What a pull asks, on one line.
fn pull_text(alloc: Global, id: Id, format: Format, max: Option<u32>) -> Result<String, Stop> {
    let id = id.text(alloc)?;
    let id = id.as_str();
    let format = format_name(format);
    match max {
        Some(max) => Ok(format!(in alloc; "pull {id} {format} {max}")?),
        None => Ok(format!(in alloc; "pull {id} {format}")?),
    }
}

/// A word with an id and what follows.
fn id_text(alloc: Global, word: &str, id: Id, rest: &str) -> Result<String, Stop> {
    let id = id.text(alloc)?;
    let id = id.as_str();
    Ok(format!(in alloc; "{word} {id}{rest}")?)
}

/// What a request asks, on one line.
fn asked_text(alloc: Global, asked: &Asked) -> Result<String, Stop> {
    match asked {
        Asked::Create(creation) => creation_text(alloc, creation),
        Asked::Send { id, text } => {
            let rest = format!(in alloc; " [{}]", text.as_str())?;
            id_text(alloc, "send", *id, rest.as_str())
        }
        Asked::Pull { id, format, max } => pull_text(alloc, *id, *format, *max),
        Asked::Abort { id } => id_text(alloc, "abort", *id, ""),
        Asked::Destroy { id, format } => {
            let rest = format!(in alloc; " {}", format_name(*format))?;
            id_text(alloc, "destroy", *id, rest.as_str())
        }
    }
}

/// The name of a method, or `-`.
fn method_name(method: &Option<Method>) -> &str {
    match method {
        Some(method) => method.as_str(),
        None => "-",
    }
}

/// The answer to what is refused, on one line: its status, the method that it names, its body.
fn refusal_text(alloc: Global, refusal: Refusal) -> Result<String, Stop> {
    let HttpResponse {
        status,
        allow,
        close: _,
        body,
    } = refusal.response(alloc, false)?;
    let body = String::from_utf8(body.into_vec()).map_err(|_| Stop::Malformed)?;
    let body = body.as_str();
    let allow = method_name(&allow);
    Ok(format!(in alloc; "{status} {allow} {body}")?)
}

/// The request of a method, a target and a body.
fn request_of(alloc: Global, row: &Row) -> Result<HttpRequest, Stop> {
    let method = Method::from_bytes(alloc, row.field(0).as_bytes()).map_err(|_| Stop::Malformed)?;
    let target = Text::from_str(alloc, row.field(1))?;
    let body = bytes_of(alloc, row.field(2))?;
    Ok(HttpRequest {
        method,
        target,
        close: false,
        body,
    })
}

/// What a request asks, or what it is answered where it is refused.
pub(crate) fn routed_of(alloc: Global, row: &Row) -> Result<String, Stop> {
    let request = request_of(alloc, row)?;
    let routes = Routes::new(alloc)?;
    match route(alloc, &routes, &request) {
        Ok(asked) => asked_text(alloc, &asked),
        Err(fault) => refusal_text(alloc, Refusal::from(fault)),
    }
}
