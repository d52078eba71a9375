// The parameters of a query.
ghost use Rattle.std.specs.Prelude.{◌≡◌, IfOk, IfSome, ◌<◌, option_map, string_bytes};
ghost use Rattle.routes.specs.Params.{first_param, text_of, digit, small_number};
ghost use Rattle.routes.specs.Paths.{path_of, query_of};

use form_urlencoded::{decode, raw_pairs};
use std::alloc::Global;
use term_core::Memory;

/// A name or a value as text.
fn text_of(alloc: Global, bytes: &[u8]) -> Result<String, Memory>
    ensures { IfOk result (λ s. string_bytes s ≡ text_of bytes.now) }
{
    Ok(decode(alloc, bytes)?.into_owned(alloc)?)
}

/// The value of the first parameter with a name.
pub fn param(alloc: Global, query: &[u8], name: &str) -> Result<Option<String>, Memory>
    ensures { IfOk result (λ v. option_map string_bytes v ≡ first_param query.now name.now) }
{
    'pairs: for (key, value) in raw_pairs(query) {
        let key = text_of(alloc, key)?;
        if key.as_str() == name {
            return Ok(Some(text_of(alloc, value)?));
        }
    }
    Ok(None)
}

fn digit(byte: u8) -> Option<u32>
    ensures value { result ≡ digit byte }
    ensures bound { IfSome result (λ n. n < 10) }
{
    if byte.is_ascii_digit() {
        Some(u32::from(byte - b'0'))
    } else {
        None
    }
}

/// The number that one or two decimal digits write.
pub fn small_number(digits: &[u8]) -> Option<u32>
    ensures { result ≡ small_number digits.now }
{
    match digits {
        [one] => digit(*one),
        [ten, one] => {
            let ten = digit(*ten)?;
            let one = digit(*one)?;
            Some(10 * ten + one)
        }
        _ => None,
    }
}

/// A target's path, and its query, which is empty where there is none.
pub fn cut_target(target: &str) -> (&str, &str)
    ensures path { result.0.now ≡ path_of target.now }
    ensures query { result.1.now ≡ query_of target.now }
{
    match target.split_once('?') {
        Some(parts) => parts,
        None => (target, ""),
    }
}
