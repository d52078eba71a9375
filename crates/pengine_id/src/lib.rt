//! The names of pengines: UUIDs of version 8 (RFC 9562), each with the number of its making.
#![tactic(auto)]

ghost use Rattle.std.specs.Prelude.{◌≡◌, ◌<◌, ◌^◌, IfOk};
ghost use Rattle.pengine_id.specs.Layout.{id_of, serial, id_text, id_read};

use std::alloc::Global;
use term_core::{Memory, Text};
use uuid::Uuid;

/// The name of a pengine among those of a server.
#[derive(Clone, Copy, Debug, Drop, PartialEq, Eq)]
pub struct Id {
    /// The 128 bits of the UUID.
    pub bits: u128,
}

impl Id {
    /// The id of two random words and a serial number, which is below 2^48.
    pub fn of(words: (u64, u64), serial: u64) -> Id
        requires { serial < 2 ^ 48 }
        ensures { result ≡ id_of words serial }
    {
        let (first, second) = words;
        let high = first / 65_536 * 65_536 + 8 * 4_096 + first / 16 % 4_096;
        let low = 2 * (1 << 62) + second / (1 << 50) * (1 << 48) + serial;
        Id {
            bits: (high as u128) * (1 << 64) + low as u128,
        }
    }

    /// The serial number that it was made of.
    pub fn serial(self) -> u64
        ensures { result ≡ serial self }
    {
        (self.bits % (1 << 48)) as u64
    }

    /// The id that a text writes in any form of a UUID; `None` exactly where it writes none.
    pub fn read(text: &str) -> Option<Id>
        ensures { result ≡ id_read text.now }
    {
        match Uuid::parse_str(text) {
            Ok(uuid) => Some(Id {
                bits: uuid.as_u128(),
            }),
            Err(_) => None,
        }
    }

    /// The id in lower case, with hyphens. `Err` is want of memory.
    pub fn text(self, alloc: Global) -> Result<Text, Memory>
        ensures { IfOk result (λ t. t ≡ id_text self) }
    {
        let uuid = Uuid::from_u128(self.bits);
        let mut buffer = Uuid::encode_buffer();
        Text::from_str(alloc, uuid.hyphenated().encode_lower(&mut buffer))
    }
}

#[cfg(test)]
mod tests;
