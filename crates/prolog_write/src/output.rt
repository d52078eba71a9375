ghost use Rattle.std.specs.Prelude.{◌≡◌, ◌<◌, ◌≤◌, ◌++◌, ◌∷◌, [], false, length, codes, OnOk, IfErr};
ghost use Rattle.std.specs.List.{flat_map};
ghost use Rattle.prolog_write.specs.Text.{escaped, hex_digits, atom_text};
ghost use Rattle.prolog_write.specs.Duties.{piece_of};
ghost use Rattle.prolog_write.specs.State.{appended, spaced, with_piece};

use crate::atoms::{hex_digit, is_spaced, last, stands_bare};
use crate::lexeme::{Lexeme, is_lettered};
use crate::mode::{Mode, WriteStop};
use itoa::Buffer;
use std::alloc::Global;
use std::marker::Model;

// A text that is written piece by piece and has at most `limit` bytes.
#[derive(Debug, Drop)]
pub(crate) struct Output {
    written: Vec<u8>,
    limit: u64,
    // The last byte of the last piece, or 0, and whether that is an operator before its operand.
    ending: u8,
    behind_prefix: bool,
}

impl Model for Output {
    ghost use Rattle.std.specs.Prelude.{◌≤◌, vec_len};
    ghost use Rattle.prolog_write.specs.State.{State};

    ghost Value = { State };

    ghost view = { λ o. record { written = o.written.items; limit = o.limit; ending = o.ending; behind_prefix = o.behind_prefix } };

    ghost invariant = { λ o. vec_len o.written ≤ o.limit };
}

impl Output {
    pub(crate) fn new(alloc: Global, limit: u64) -> Output
        ensures { result ≡ record { written = []; limit = limit; ending = 0; behind_prefix = false } }
    {
        Output {
            written: Vec::new(alloc),
            limit,
            ending: 0,
            behind_prefix: false,
        }
    }

    pub(crate) fn into_bytes(self) -> Vec<u8>
        ensures bytes { result.items ≡ self.written }
        ensures fits { length self.written ≤ self.limit }
    {
        self.written
    }

    // Writes a piece and the space before it.
    pub(crate) fn put(&mut self, mode: Mode, lexeme: Lexeme) -> Result<(), WriteStop>
        ensures ok { OnOk result (self.new ≡ with_piece self.old (piece_of mode lexeme.entry)) }
        ensures long { IfErr result (λ e. e ≡ WriteStop.TooLong → self.old.limit < length (with_piece self.old (piece_of mode lexeme.entry)).written) }
    {
        self.space(lexeme.first(mode))?;
        let start = self.written.len();
        self.append_lexeme(mode, lexeme)?;
        self.ending = last(&self.written[start..]);
        self.behind_prefix = lexeme.is_prefix();
        Ok(())
    }

    fn space(&mut self, first: u8) -> Result<(), WriteStop>
        ensures ok { OnOk result (self.new ≡ spaced self.old first) }
        ensures long { IfErr result (λ e. e ≡ WriteStop.TooLong → self.old.limit < length (spaced self.old first).written) }
    {
        if is_spaced(self.ending, self.behind_prefix, first) {
            self.append(b" ")?;
        }
        Ok(())
    }

    fn append_lexeme(&mut self, mode: Mode, lexeme: Lexeme) -> Result<(), WriteStop>
        ensures ok { OnOk result (self.new ≡ appended self.old (piece_of mode lexeme.entry).text) }
        ensures long { IfErr result (λ e. e ≡ WriteStop.TooLong → self.old.limit < length (appended self.old (piece_of mode lexeme.entry).text).written) }
    {
        match lexeme {
            Lexeme::Mark(byte) => self.append(&[byte]),
            Lexeme::Variable(number) => {
                self.append(b"_")?;
                self.append(Buffer::new().format(number).as_bytes())
            }
            Lexeme::Integer(value) => self.append(Buffer::new().format(value).as_bytes()),
            Lexeme::Atom(name) => self.append_atom(mode, name),
            Lexeme::Prefix(name) => self.append(name.as_bytes()),
            Lexeme::Infix(name) if is_lettered(name) => {
                self.append(b" ")?;
                self.append(name.as_bytes())?;
                self.append(b" ")
            }
            Lexeme::Infix(name) => self.append(name.as_bytes()),
        }
    }

    fn append_atom(&mut self, mode: Mode, name: &str) -> Result<(), WriteStop>
        ensures ok { OnOk result (self.new ≡ appended self.old (atom_text mode name.now)) }
        ensures long { IfErr result (λ e. e ≡ WriteStop.TooLong → self.old.limit < length (appended self.old (atom_text mode name.now)).written) }
    {
        if stands_bare(mode, name) {
            return self.append(name.as_bytes());
        }
        self.append(b"'")?;
        self.append_escaped(name)?;
        self.append(b"'")
    }

    fn append_escaped(&mut self, name: &str) -> Result<(), WriteStop>
        ensures ok { OnOk result (self.new ≡ appended self.old (flat_map escaped name.now)) }
        ensures long { IfErr result (λ e. e ≡ WriteStop.TooLong → self.old.limit < length (appended self.old (flat_map escaped name.now)).written) }
    {
        for byte in name.as_bytes() {
            self.append_escape(*byte)?;
        }
        Ok(())
    }

    #[tactic(auto, unfolding(crate::specs::Text::escaped))]
    fn append_escape(&mut self, byte: u8) -> Result<(), WriteStop>
        ensures ok { OnOk result (self.new ≡ appended self.old (escaped byte)) }
        ensures long { IfErr result (λ e. e ≡ WriteStop.TooLong → self.old.limit < length (appended self.old (escaped byte)).written) }
    {
        match byte {
            b'\\' => self.append(b"\\\\"),
            b'\'' => self.append(b"\\'"),
            b'\n' => self.append(b"\\n"),
            b'\t' => self.append(b"\\t"),
            0..=31 | 127 => self.append_hex(byte),
            _ => self.append(&[byte]),
        }
    }

    fn append_hex(&mut self, byte: u8) -> Result<(), WriteStop>
        ensures ok { OnOk result (self.new ≡ appended self.old (codes "\\x" ++ hex_digits byte ++ codes "\\")) }
        ensures long { IfErr result (λ e. e ≡ WriteStop.TooLong → self.old.limit < length (appended self.old (codes "\\x" ++ hex_digits byte ++ codes "\\")).written) }
    {
        if byte < 16 {
            self.append(&[b'\\', b'x', hex_digit(byte), b'\\'])
        } else {
            self.append(&[
                b'\\',
                b'x',
                hex_digit(byte / 16),
                hex_digit(byte % 16),
                b'\\',
            ])
        }
    }

    fn append(&mut self, text: &[u8]) -> Result<(), WriteStop>
        ensures ok { OnOk result (self.new ≡ appended self.old text.now) }
        ensures long { IfErr result (λ e. e ≡ WriteStop.TooLong → self.old.limit < length (appended self.old text.now).written) }
    {
        if self.limit - (self.written.len() as u64) < text.len() as u64 {
            return Err(WriteStop::TooLong);
        }
        self.written.extend_from_slice(text)?;
        Ok(())
    }
}
