// Tables of requests and of the options of a new pengine.
use crate::faults::{read_fault, spec_fault};
use crate::loading::spec;
use crate::row::Row;
use crate::stop::Stop;
use crate::terms::of_bytes;
use event_core::{Ask, Request};
use lib_text::Library;
use request_text::{Options, RequestFault, Sent, read_request, request_bytes};
use std::alloc::Global;
use term_core::Text;

/// A request as it is written, which is read and written alike; or why the text is none.
pub(crate) fn request_of(alloc: Global, text: &str) -> Result<String, Stop> {
    let sent = match read_request(alloc, text) {
        Ok(sent) => sent,
        Err(RequestFault::NotRequest) => return Ok(String::from_str(alloc, "no request")?),
        Err(RequestFault::Read(fault)) => return read_fault(alloc, fault),
        Err(RequestFault::Memory) => return Err(Stop::Memory),
    };
    let written = of_bytes(request_bytes(alloc, &sent)?)?;
    let Ok(again) = read_request(alloc, &written) else {
        return Err(Stop::Malformed);
    };
    if of_bytes(request_bytes(alloc, &again)?)?.as_str() != written.as_str() {
        return Err(Stop::Malformed);
    }
    Ok(written)
}

/// A field, or none where it is empty.
fn optional(alloc: Global, field: &str) -> Result<Option<Text>, Stop> {
    if field.is_empty() {
        return Ok(None);
    }
    Ok(Some(Text::from_str(alloc, field)?))
}

/// The first query of a pengine with the bytes of its texts.
fn query_text(alloc: Global, ask: Option<Ask>) -> Result<String, Stop> {
    let Some(ask) = ask else {
        return Ok(String::from_str(alloc, "no query")?);
    };
    let bytes = ask.bytes;
    let ask = of_bytes(request_bytes(alloc, &Sent::Request(Request::Ask(ask)))?)?;
    Ok(format!(in alloc; "{bytes} {ask}")?)
}

/// What a query, a template and a source text are as the options of a new pengine.
pub(crate) fn spec_of(alloc: Global, library: &Library, row: &Row) -> Result<String, Stop> {
    let options = Options {
        ask: optional(alloc, row.field(0))?,
        template: optional(alloc, row.field(1))?,
        src_text: Text::from_str(alloc, row.field(2))?,
        chunk: 2,
        limit: 9,
        destroy: false,
        names: false,
    };
    match spec(alloc, library, &options) {
        Ok(spec) => query_text(alloc, spec.ask),
        Err(fault) => spec_fault(alloc, &fault),
    }
}
