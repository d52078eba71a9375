// What a refusal is answered.
ghost use Rattle.std.specs.Prelude.{◌≡◌, IfOk, option_map, string_bytes};
ghost use Rattle.routes.specs.Paths.{method_name};
ghost use Rattle.routes.specs.Refusals.{param_name, unheard_status, unheard_name, status_of, allow_of, closes, response_of, plain_body, numbered_body, param_body, slot_body, journal_body, body_of};

use crate::endpoint::Allowed;
use crate::fault::{Param, RouteFault};
use http::Method;
use http_wire::{HttpResponse, Why};
use std::alloc::Global;
use term_core::{App, Bytes, Memory};

/// All that may be refused over HTTP.
#[derive(Clone, Copy, Drop)]
pub enum Refusal {
    /// What came is no request.
    Unheard(Why),
    /// The path is none of the server's.
    NoPath,
    /// The path is for another method.
    BadMethod { allow: Allowed },
    /// A parameter is missing or wrong, or the body is.
    BadParam(Param),
    /// The id is no UUID's text.
    BadId,
    /// The source text can't be read at this byte.
    Source { at: u64 },
    /// This clause of the source text, from 1, is refused.
    Clause { clause: u64 },
    /// A query, a template or a request can't be read at this byte.
    Text { at: u64 },
    /// The text is a term, and no request.
    NotRequest,
    /// There is no such pengine.
    NoSuch,
    /// The pengine has as many requests waiting as it may.
    MailboxFull,
    /// All the application's slots are taken, by so many pengines.
    NoSlot { app: App, live: u32 },
    /// The history has no room: so many entries, and so many bytes of texts.
    JournalFull { entries: u64, bytes: u64 },
    /// Memory is wanting.
    Memory,
}

impl From<RouteFault> for Refusal {
    ghost use Rattle.std.specs.Prelude.{◌≡◌};
    ghost use Rattle.routes.specs.Refusals.{refusal_of};

    ghost from_gives = { λ fault refusal. refusal ≡ refusal_of fault };

    fn from(fault: RouteFault) -> Refusal {
        match fault {
            RouteFault::NoPath => Refusal::NoPath,
            RouteFault::BadMethod { allow } => Refusal::BadMethod { allow },
            RouteFault::BadParam(param) => Refusal::BadParam(param),
            RouteFault::BadId => Refusal::BadId,
            RouteFault::Memory => Refusal::Memory,
        }
    }
}

impl Param {
    /// The name as it stands in a query or an object.
    pub fn name(self) -> &'static str
        ensures { result.now ≡ param_name self }
    {
        match self {
            Param::Application => "application",
            Param::Ask => "ask",
            Param::Body => "body",
            Param::Chunk => "chunk",
            Param::Destroy => "destroy",
            Param::Format => "format",
            Param::Id => "id",
            Param::Limit => "limit",
            Param::Max => "max",
            Param::Names => "names",
            Param::SrcText => "src_text",
            Param::Template => "template",
        }
    }
}

/// The method that an answer names.
fn method_of(allow: Option<Allowed>) -> Option<Method>
    ensures { result ≡ option_map method_name allow }
{
    match allow {
        Some(Allowed::Get) => Some(Method::GET),
        Some(Allowed::Post) => Some(Method::POST),
        None => None,
    }
}

fn unheard_status(why: Why) -> u16
    ensures { result ≡ unheard_status why }
{
    match why {
        Why::BadHead | Why::Truncated => 400,
        Why::NoLength => 411,
        Why::BodyTooLong => 413,
        Why::HeadTooLong => 431,
    }
}

fn unheard_name(why: Why) -> &'static str
    ensures { result.now ≡ unheard_name why }
{
    match why {
        Why::BadHead => "bad_head",
        Why::Truncated => "truncated",
        Why::NoLength => "no_length",
        Why::BodyTooLong => "body_too_long",
        Why::HeadTooLong => "head_too_long",
    }
}

fn plain_body(alloc: Global, name: &str) -> Result<String, Memory>
    ensures { IfOk result (λ s. string_bytes s ≡ plain_body name.now) }
{
    Ok(format!(in alloc; "{{\"error\":\"{name}\"}}")?)
}

fn numbered_body(alloc: Global, key: &str, n: u64, name: &str) -> Result<String, Memory>
    ensures { IfOk result (λ s. string_bytes s ≡ numbered_body key.now n name.now) }
{
    Ok(format!(in alloc; "{{\"{key}\":{n},\"error\":\"{name}\"}}")?)
}

fn param_body(alloc: Global, name: &str) -> Result<String, Memory>
    ensures { IfOk result (λ s. string_bytes s ≡ param_body name.now) }
{
    Ok(format!(in alloc; "{{\"error\":\"bad_param\",\"name\":\"{name}\"}}")?)
}

fn slot_body(alloc: Global, name: &str, live: u32) -> Result<String, Memory>
    ensures { IfOk result (λ s. string_bytes s ≡ slot_body name.now live) }
{
    Ok(format!(in alloc; "{{\"application\":\"{name}\",\"error\":\"no_slot\",\"live\":{live}}}")?)
}

fn journal_body(alloc: Global, entries: u64, bytes: u64) -> Result<String, Memory>
    ensures { IfOk result (λ s. string_bytes s ≡ journal_body entries bytes) }
{
    Ok(format!(in alloc; "{{\"bytes\":{bytes},\"entries\":{entries},\"error\":\"journal_full\"}}")?)
}

impl Refusal {
    /// The status of the answer.
    pub fn status(self) -> u16
        ensures { result ≡ status_of self }
    {
        match self {
            Refusal::Unheard(why) => unheard_status(why),
            Refusal::NoPath | Refusal::NoSuch => 404,
            Refusal::BadMethod { .. } => 405,
            Refusal::BadParam(_) | Refusal::BadId => 400,
            Refusal::Source { .. } | Refusal::Clause { .. } | Refusal::Text { .. } => 400,
            Refusal::NotRequest => 400,
            Refusal::MailboxFull => 429,
            Refusal::NoSlot { .. } | Refusal::JournalFull { .. } | Refusal::Memory => 503,
        }
    }

    /// The method that the answer names.
    pub fn allow(self) -> Option<Allowed>
        ensures { result ≡ allow_of self }
    {
        match self {
            Refusal::BadMethod { allow } => Some(allow),
            _ => None,
        }
    }

    /// The body of the answer. `Err` is want of memory.
    pub fn body(self, alloc: Global) -> Result<String, Memory>
        ensures { IfOk result (λ s. string_bytes s ≡ body_of self) }
    {
        match self {
            Refusal::Unheard(why) => plain_body(alloc, unheard_name(why)),
            Refusal::NoPath => plain_body(alloc, "no_path"),
            Refusal::BadMethod { .. } => plain_body(alloc, "bad_method"),
            Refusal::BadParam(param) => param_body(alloc, param.name()),
            Refusal::BadId => plain_body(alloc, "bad_id"),
            Refusal::Source { at } => numbered_body(alloc, "at", at, "source"),
            Refusal::Clause { clause } => numbered_body(alloc, "clause", clause, "source"),
            Refusal::Text { at } => numbered_body(alloc, "at", at, "text"),
            Refusal::NotRequest => plain_body(alloc, "not_request"),
            Refusal::NoSuch => plain_body(alloc, "no_such"),
            Refusal::MailboxFull => plain_body(alloc, "mailbox_full"),
            Refusal::NoSlot { app, live } => slot_body(alloc, app.name(), live),
            Refusal::JournalFull { entries, bytes } => journal_body(alloc, entries, bytes),
            Refusal::Memory => plain_body(alloc, "memory"),
        }
    }

    /// Whether the connection is closed after the answer: after what is no request, and else as it asked.
    pub fn closes(self, close: bool) -> bool
        ensures { result ≡ closes self close }
    {
        match self {
            Refusal::Unheard(_) => true,
            _ => close,
        }
    }

    /// The answer to what is refused, where `close` says whether the request asks to close the
    /// connection. `Err` is want of memory.
    pub fn response(self, alloc: Global, close: bool) -> Result<HttpResponse, Memory>
        ensures { IfOk result (λ r. r ≡ response_of self close) }
    {
        let body = self.body(alloc)?;
        Ok(HttpResponse {
            status: self.status(),
            allow: method_of(self.allow()),
            close: self.closes(close),
            body: Bytes::from_vec(body.into_bytes()),
        })
    }
}
