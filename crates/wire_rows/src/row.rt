// Rows: fields with tabs between them. `⏎` in a field is the end of a line, `⟨hex⟩` the character of this code,
// and `⟨N×text⟩` the text N times. Where bytes are given, a character from E000 to E0FF is the byte 00 to FF.
use crate::stop::Stop;
use std::alloc::Global;
use term_core::Bytes;

/// A row: what is given, and what is to come of it.
#[derive(Drop)]
pub(crate) struct Row {
    pub(crate) given: Vec<String>,
    pub(crate) wanted: String,
}

impl Row {
    /// Reads a row with so many fields that are given.
    pub(crate) fn read(alloc: Global, line: &str, inputs: u32) -> Result<Row, Stop> {
        let mut given = Vec::new(alloc);
        let mut rest = line;
        for _ in 0..inputs {
            let (field, others) = rest.split_once('\t').ok_or(Stop::Malformed)?;
            given.push(plain(alloc, field)?)?;
            rest = others;
        }
        let wanted = plain(alloc, rest)?;
        Ok(Row { given, wanted })
    }

    /// The field at a place, from 0; empty where there is none.
    pub(crate) fn field(&self, at: usize) -> &str {
        match self.given.get(at) {
            Some(field) => field.as_str(),
            None => "",
        }
    }
}

/// The text that a field stands for.
pub(crate) fn plain(alloc: Global, field: &str) -> Result<String, Stop> {
    let mut text = String::new(alloc);
    let mut parts = field.split('⟨');
    push_part(&mut text, parts.next().unwrap_or(""))?;
    for part in parts {
        let (code, behind) = part.split_once('⟩').ok_or(Stop::Malformed)?;
        push_code(&mut text, code)?;
        push_part(&mut text, behind)?;
    }
    Ok(text)
}

/// Adds a part of a field with its line ends.
fn push_part(text: &mut String, part: &str) -> Result<(), Stop> {
    for c in part.chars() {
        text.push(if c == '⏎' { '\n' } else { c })?;
    }
    Ok(())
}

/// Adds what stands between brackets.
fn push_code(text: &mut String, code: &str) -> Result<(), Stop> {
    let Some((times, part)) = code.split_once('×') else {
        let code = u32::from_str_radix(code, 16).map_err(|_| Stop::Malformed)?;
        text.push(char::from_u32(code).ok_or(Stop::Malformed)?)?;
        return Ok(());
    };
    for _ in 0..number(times)? {
        push_part(text, part)?;
    }
    Ok(())
}

/// The byte that a character of a field is, where it is none of a text.
fn lone_byte(c: char) -> Option<u8> {
    u8::try_from(u32::from(c).checked_sub(0xe000)?).ok()
}

/// The bytes that a field gives.
pub(crate) fn bytes_of(alloc: Global, field: &str) -> Result<Bytes, Stop> {
    let mut bytes = Bytes::new(alloc);
    let mut buffer = [0; 4];
    for c in field.chars() {
        match lone_byte(c) {
            Some(byte) => bytes.push(byte)?,
            None => bytes.append(c.encode_utf8(&mut buffer).as_bytes())?,
        }
    }
    Ok(bytes)
}

/// The number that a field spells.
pub(crate) fn number(field: &str) -> Result<u64, Stop> {
    field.parse::<u64>().map_err(|_| Stop::Malformed)
}
