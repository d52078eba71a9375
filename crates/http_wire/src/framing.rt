// What a head says of the message's body and of the connection.
ghost use Rattle.std.specs.Prelude.{◌≡◌, ◌≤◌, ◌==◌, ◌||◌, ◌++◌, [], ◌∷◌, ℕ, List, length, map, All, codes, if◌then◌else◌, Some, None};
ghost use Rattle.std.specs.List.{list_any};
ghost use Rattle.std.specs.Str.Parse.{digits_value};
ghost use Rattle.httparse.specs.Spans.{span_bytes, header_bytes, IsWithin, IsHeaderWithin};
ghost use Rattle.http_wire.specs.Framing.{same_name, values, is_length, length_of, lists_close, option_is_close};
ghost use Rattle.http_wire.specs.Single.{IsSingle};

use crate::message::Why;
use httparse::spans::{HeaderSpan, Span};

/// The most bytes that the body of a request has.
const BODY_LIMIT: u64 = 1_048_576;

/// The value of a field that is to stand once.
#[derive(Clone, Copy, Debug, Drop, PartialEq, Eq)]
pub enum Single {
    Missing,
    One(Span),
    Several,
}

impl Single {
    /// With the value of one field more, if it has this name.
    fn after(self, bytes: &[u8], field: &HeaderSpan, name: &[u8]) -> Single
        requires { IsHeaderWithin (length bytes.now) field.now }
        ensures { (vs : List (List ℕ)) → IsSingle bytes.now vs self → IsSingle bytes.now (vs ++ values name.now (header_bytes bytes.now field.now ∷ [])) result }
    {
        if !field.name.of(bytes).eq_ignore_ascii_case(name) {
            return self;
        }
        match self {
            Single::Missing => Single::One(field.value),
            _ => Single::Several,
        }
    }
}

/// The value of the field of this name.
pub fn only_value(bytes: &[u8], fields: &[HeaderSpan], name: &[u8]) -> Single
    requires { All (IsHeaderWithin (length bytes.now)) fields.now }
    ensures { IsSingle bytes.now (values name.now (map (header_bytes bytes.now) fields.now)) result }
{
    let mut found = Single::Missing;
    'fields: for field in fields {
        found = found.after(bytes, field, name);
    }
    found
}

/// The number that 1 to 19 digits write; `None` where they aren't that.
pub fn number(digits: &[u8]) -> Option<u64>
    ensures { result ≡ (if is_length digits.now then Some (digits_value 10 digits.now) else None) }
{
    if digits.is_empty() || digits.len() > 19 {
        return None;
    }
    let mut n: u64 = 0;
    'digits: for b in digits {
        if !b.is_ascii_digit() {
            return None;
        }
        n = n * 10 + u64::from(*b - b'0');
    }
    Some(n)
}

/// How long the body of a request is, or why it isn't read.
pub fn body_length(bytes: &[u8], method: Span, fields: &[HeaderSpan]) -> Result<usize, Why>
    requires method { IsWithin (length bytes.now) method }
    requires fields { All (IsHeaderWithin (length bytes.now)) fields.now }
    ensures { result ≡ length_of (span_bytes bytes.now method) (map (header_bytes bytes.now) fields.now) }
{
    let coded = only_value(bytes, fields, b"transfer-encoding") != Single::Missing;
    match only_value(bytes, fields, b"content-length") {
        Single::Missing => {
            if method.of(bytes) == b"GET".as_slice() && !coded {
                Ok(0)
            } else {
                Err(Why::NoLength)
            }
        }
        Single::One(value) => {
            let Some(length) = number(value.of(bytes)) else {
                return Err(Why::BadHead);
            };
            if coded {
                return Err(Why::NoLength);
            }
            if length <= BODY_LIMIT {
                Ok(length as usize)
            } else {
                Err(Why::BodyTooLong)
            }
        }
        Single::Several => Err(Why::BadHead),
    }
}

/// Whether an option of a field `Connection` is `close`.
fn is_close(option: &[u8]) -> bool
    ensures { result ≡ option_is_close option.now }
{
    option.trim_ascii().eq_ignore_ascii_case(b"close")
}

/// Whether one of the options that the value lists is `close`.
fn asks_close(value: &[u8]) -> bool
    ensures { result ≡ lists_close value.now }
{
    value.split(|b| *b == b',').any(|option| is_close(option))
}

/// Whether the field is `Connection`, and lists the option `close`.
fn says_close(bytes: &[u8], field: &HeaderSpan) -> bool
    requires { IsHeaderWithin (length bytes.now) field.now }
    ensures { result ≡ list_any lists_close (values (codes "connection") (header_bytes bytes.now field.now ∷ [])) }
{
    if !field.name.of(bytes).eq_ignore_ascii_case(b"connection") {
        return false;
    }
    asks_close(field.value.of(bytes))
}

/// Whether the connection is closed after the message, by its minor version and fields.
pub fn closes(bytes: &[u8], minor: u8, fields: &[HeaderSpan]) -> bool
    requires { All (IsHeaderWithin (length bytes.now)) fields.now }
    ensures { result ≡ (minor == 0 || list_any lists_close (values (codes "connection") (map (header_bytes bytes.now) fields.now))) }
{
    if minor == 0 {
        return true;
    }
    'fields: for field in fields {
        if says_close(bytes, field) {
            return true;
        }
    }
    false
}
