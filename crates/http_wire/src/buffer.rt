// Bytes that were read and aren't used yet.
ghost use Rattle.std.specs.Prelude.{◌≡◌, ◌+◌, ◌<◌, ◌≤◌, [], ◌++◌, ℕ, List, length, drop, IfOk, IfErr, OnOk, OnErr, Err};
ghost use Rattle.outside.specs.Faults.{Rose};
ghost use Rattle.http_wire.specs.declared.message.Stop.TheVariants as stop;
ghost use Rattle.http_wire.specs.Reads.{Reads};
ghost use Rattle.http_wire.specs.Heads.{FillStops};
ghost use Rattle.http_wire.specs.Endings.{IsOpen};

use crate::ending::Place;
use crate::message::Stop;
use outside::{ReadGot, Source};
use std::alloc::Global;
use std::marker::Model;
use term_core::Memory;

/// How much a read asks for.
const PIECE: usize = 8192;

/// Bytes of a source that were read and aren't used yet, which contracts see as their list.
#[derive(Drop)]
pub struct Buffer {
    bytes: Vec<u8>,
    at: usize,
    piece: Vec<u8>,
}

impl Model for Buffer {
    ghost use Rattle.std.specs.Prelude.{◌≡◌, ◌≤◌, ℕ, List, length, drop};

    ghost Value = { List ℕ };

    ghost view = { λ b. drop b.at b.bytes.items };

    ghost invariant = { λ b. (b.at ≤ length b.bytes.items) × (length b.piece.items ≡ 8192) };
}

impl Buffer {
    /// No bytes. `Err` is want of memory.
    pub fn new(alloc: Global) -> Result<Buffer, Memory>
        ensures { IfOk result (λ b. b ≡ []) }
    {
        Ok(Buffer {
            bytes: Vec::new(alloc),
            at: 0,
            piece: vec![in alloc; 0; PIECE]?,
        })
    }

    /// The bytes.
    pub fn bytes(&self) -> &[u8]
        ensures { result.now ≡ self.now }
    {
        &self.bytes[self.at..]
    }

    /// Lets the first bytes go, so many of them.
    pub fn advance(&mut self, count: usize)
        requires { count ≤ length self.old }
        ensures { self.new ≡ drop count self.old }
    {
        self.at += count;
    }

    /// Moves the bytes to the front of their room, once the room before them is let go.
    fn compact(&mut self)
        ensures { self.new ≡ self.old }
    {
        if self.at > 0 {
            drop(self.bytes.drain(..self.at));
            self.at = 0;
        }
    }

    /// Reads a piece behind the bytes, and says how many bytes it has.
    pub fn fill<S: Source>(&mut self, src: &mut S) -> Result<usize, Stop>
        ensures reads { Reads S.left S.faults S.reads src.old src.new self.old self.new }
        ensures some { IfOk result (λ n. (1 ≤ n) × (length self.new ≡ length self.old + n)) }
        ensures same { OnErr result (self.new ≡ self.old) }
        ensures stops { IfErr result (λ e. FillStops e (S.left src.new)) }
        ensures cause { result ≡ Err stop.ReadFault → Rose (S.faults src.old) (S.faults src.new) }
    {
        self.compact();
        if self.bytes.reserve(PIECE).is_err() {
            return Err(Stop::Memory);
        }
        match src.read(&mut self.piece) {
            ReadGot::Got(count) => {
                let Ok(()) = self.bytes.extend_from_slice(&self.piece[..count]) else {
                    unreachable!()
                };
                Ok(count)
            }
            ReadGot::End => Err(Stop::End),
            ReadGot::Failed => Err(Stop::ReadFault),
        }
    }

    /// Reads until what is held has the end of a head, or is twice what it was, or has `most` bytes.
    pub fn fill_head<S: Source>(&mut self, src: &mut S, most: usize) -> Result<(), Stop>
        requires { length self.old < most }
        ensures reads { Reads S.left S.faults S.reads src.old src.new self.old self.new }
        ensures more { OnOk result (length self.old < length self.new) }
        ensures few { OnErr result (length self.new < most) }
        ensures unended { OnErr result (IsOpen self.old self.new) }
        ensures stops { IfErr result (λ e. FillStops e (S.left src.new)) }
        ensures cause { result ≡ Err stop.ReadFault → Rose (S.faults src.old) (S.faults src.new) }
    {
        let held = self.bytes().len();
        let mut place = Place::Before.behind(self.bytes());
        'pieces: loop {
            let count = self.fill(src)?;
            let bytes = self.bytes();
            place = place.behind(&bytes[bytes.len() - count..]);
            if place.is_over() || bytes.len() >= most || bytes.len() / 2 >= held {
                return Ok(());
            }
        }
    }

    /// Reads until `count` bytes are held.
    pub fn fill_to<S: Source>(&mut self, src: &mut S, count: usize) -> Result<(), Stop>
        ensures reads { Reads S.left S.faults S.reads src.old src.new self.old self.new }
        ensures enough { OnOk result (count ≤ length self.new) }
        ensures few { OnErr result (length self.new < count) }
        ensures stops { IfErr result (λ e. FillStops e (S.left src.new)) }
        ensures cause { result ≡ Err stop.ReadFault → Rose (S.faults src.old) (S.faults src.new) }
    {
        'pieces: loop {
            if self.bytes().len() >= count {
                return Ok(());
            }
            self.fill(src)?;
        }
    }
}
