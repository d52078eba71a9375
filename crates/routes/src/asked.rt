ghost use Rattle.std.specs.Prelude.{◌≡◌, ◌≢◌, IfOk, IfErr, Ok, Err, option_map, string_bytes};
ghost use Rattle.routes.specs.Asked.{format_by, max_by, named_by, id_by, body_by, send_from, send_by, pull_from, pull_by, abort_from, abort_by, destroy_from, destroy_by};
ghost use Rattle.routes.specs.Params.{first_param};

use crate::creation::Creation;
use crate::fault::{Param, RouteFault};
use crate::params::{param, small_number};
use pengine_id::Id;
use std::alloc::Global;
use std::str;
use term_core::Text;

/// How terms are written in an answer.
#[derive(Clone, Copy, Drop)]
pub enum Format {
    /// Terms as JSON values.
    Json,
    /// Terms as strings.
    JsonS,
}

/// What a request asks.
#[derive(Drop)]
pub enum Asked {
    /// To make a pengine.
    Create(Creation),
    /// To send a pengine the request that the text writes.
    Send {
        id: Id,
        text: Text,
    },
    /// To pull the next event, or with `max`, from 1 to 64, up to so many.
    Pull {
        id: Id,
        format: Format,
        max: Option<u32>,
    },
    /// To abort the query that runs.
    Abort {
        id: Id,
    },
    /// To destroy the pengine.
    Destroy {
        id: Id,
        format: Format,
    },
}

fn format_of(given: Option<&str>) -> Result<Format, RouteFault>
    ensures { result ≡ format_by (option_map (λ s. s.now) given.entry) }
{
    match given {
        None => Ok(Format::Json),
        Some("json") => Ok(Format::Json),
        Some("json-s") => Ok(Format::JsonS),
        Some(_) => Err(RouteFault::BadParam(Param::Format)),
    }
}

fn max_of(given: Option<&str>) -> Result<Option<u32>, RouteFault>
    ensures { result ≡ max_by (option_map (λ s. s.now) given.entry) }
{
    let Some(text) = given else {
        return Ok(None);
    };
    match small_number(text.as_bytes()) {
        Some(max) if 1 <= max && max <= 64 => Ok(Some(max)),
        _ => Err(RouteFault::BadParam(Param::Max)),
    }
}

fn id_of(text: &str) -> Result<Id, RouteFault>
    ensures { result ≡ id_by text.now }
{
    match Id::read(text) {
        Some(id) => Ok(id),
        None => Err(RouteFault::BadId),
    }
}

fn name_of(given: Option<&str>) -> Result<&str, RouteFault>
    ensures ok { IfOk result (λ s. named_by (option_map (λ t. t.now) given.entry) ≡ Ok s.now) }
    ensures err { IfErr result (λ e. named_by (option_map (λ t. t.now) given.entry) ≡ Err e) }
{
    match given {
        Some(text) => Ok(text),
        None => Err(RouteFault::BadParam(Param::Id)),
    }
}

/// A parameter's value as text.
fn as_text(given: &Option<String>) -> Option<&str>
    ensures { option_map (λ s. s.now) result ≡ option_map string_bytes given.now }
{
    match given {
        Some(text) => Some(text.as_str()),
        None => None,
    }
}

/// What a pull asks, of the values of its parameters.
fn pull_from(
    format: Option<&str>,
    name: Option<&str>,
    max: Option<&str>,
) -> Result<Asked, RouteFault>
    ensures { result ≡ pull_from (option_map (λ s. s.now) format.entry) (option_map (λ s. s.now) name.entry) (option_map (λ s. s.now) max.entry) }
{
    let format = format_of(format)?;
    let name = name_of(name)?;
    let max = max_of(max)?;
    let id = id_of(name)?;
    Ok(Asked::Pull { id, format, max })
}

/// What a pull with this query asks.
pub fn pull(alloc: Global, query: &[u8]) -> Result<Asked, RouteFault>
    ensures ok { IfOk result (λ a. pull_by (first_param query.now) ≡ Ok a) }
    ensures err { IfErr result (λ e. e ≢ RouteFault.Memory → pull_by (first_param query.now) ≡ Err e) }
{
    let format = param(alloc, query, "format")?;
    let name = param(alloc, query, "id")?;
    let max = param(alloc, query, "max")?;
    pull_from(as_text(&format), as_text(&name), as_text(&max))
}

/// What an abort asks, of the value of its parameter.
fn abort_from(name: Option<&str>) -> Result<Asked, RouteFault>
    ensures { result ≡ abort_from (option_map (λ s. s.now) name.entry) }
{
    let name = name_of(name)?;
    let id = id_of(name)?;
    Ok(Asked::Abort { id })
}

/// What an abort with this query asks.
pub fn abort(alloc: Global, query: &[u8]) -> Result<Asked, RouteFault>
    ensures ok { IfOk result (λ a. abort_by (first_param query.now) ≡ Ok a) }
    ensures err { IfErr result (λ e. e ≢ RouteFault.Memory → abort_by (first_param query.now) ≡ Err e) }
{
    let name = param(alloc, query, "id")?;
    abort_from(as_text(&name))
}

/// What a destroy asks, of the values of its parameters.
fn destroy_from(format: Option<&str>, name: Option<&str>) -> Result<Asked, RouteFault>
    ensures { result ≡ destroy_from (option_map (λ s. s.now) format.entry) (option_map (λ s. s.now) name.entry) }
{
    let format = format_of(format)?;
    let name = name_of(name)?;
    let id = id_of(name)?;
    Ok(Asked::Destroy { id, format })
}

/// What a destroy with this query asks.
pub fn destroy(alloc: Global, query: &[u8]) -> Result<Asked, RouteFault>
    ensures ok { IfOk result (λ a. destroy_by (first_param query.now) ≡ Ok a) }
    ensures err { IfErr result (λ e. e ≢ RouteFault.Memory → destroy_by (first_param query.now) ≡ Err e) }
{
    let format = param(alloc, query, "format")?;
    let name = param(alloc, query, "id")?;
    destroy_from(as_text(&format), as_text(&name))
}

/// A body that is text.
fn body_text(body: &[u8]) -> Result<&str, RouteFault>
    ensures ok { IfOk result (λ s. body_by body.now ≡ Ok s.now) }
    ensures err { IfErr result (λ e. body_by body.now ≡ Err e) }
{
    match str::from_utf8(body) {
        Ok(text) => Ok(text),
        Err(_) => Err(RouteFault::BadParam(Param::Body)),
    }
}

/// What a send asks, of its text and the value of its parameter.
fn send_from(alloc: Global, body: &[u8], name: Option<&str>) -> Result<Asked, RouteFault>
    ensures ok { IfOk result (λ a. send_from body.now (option_map (λ s. s.now) name.entry) ≡ Ok a) }
    ensures err { IfErr result (λ e. e ≢ RouteFault.Memory → send_from body.now (option_map (λ s. s.now) name.entry) ≡ Err e) }
{
    let text = body_text(body)?;
    let name = name_of(name)?;
    let id = id_of(name)?;
    let text = Text::from_str(alloc, text)?;
    Ok(Asked::Send { id, text })
}

/// What a send with this query and body asks.
pub fn send(alloc: Global, query: &[u8], body: &[u8]) -> Result<Asked, RouteFault>
    ensures ok { IfOk result (λ a. send_by body.now (first_param query.now) ≡ Ok a) }
    ensures err { IfErr result (λ e. e ≢ RouteFault.Memory → send_by body.now (first_param query.now) ≡ Err e) }
{
    let name = param(alloc, query, "id")?;
    send_from(alloc, body, as_text(&name))
}
