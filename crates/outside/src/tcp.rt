// Connections of the operating system. They tell no content.
ghost use Rattle.std.specs.Prelude.{◌≡◌};

use crate::{Accepted, Door, ReadGot, Sink, Source, Wire, Wrote};
use std::io::{Read, Write};
use std::marker::Model;
use std::net::{TcpListener, TcpStream};
use std::time::Duration;

/// How long a read or a write of a wire waits for its peer, in seconds. A longer wait is a fault of the
/// wire, so a silent peer holds no door for longer.
const PATIENCE: u64 = 30;

/// One TCP connection, which contracts see as its count of faults. Every error of the operating system
/// is a fault, a read or a write that waits for more than 30 seconds among them. Small writes go out at
/// once.
#[derive(Drop)]
pub struct TcpWire {
    // None where the system doesn't keep the time
    stream: Option<TcpStream>,
    faults: u64,
}

impl Model for TcpWire {
    ghost use Rattle.std.specs.Prelude.{ℕ};

    ghost Value = { ℕ };

    ghost view = { λ w. w.faults };
}

/// Whether the stream waits no longer than it may.
fn keeps_time(stream: &TcpStream) -> bool {
    let patience = Some(Duration::from_secs(PATIENCE));
    let _ = stream.set_nodelay(true);
    stream.set_read_timeout(patience).is_ok() && stream.set_write_timeout(patience).is_ok()
}

impl TcpWire {
    /// A wire over this connection, with no fault yet.
    pub fn new(stream: TcpStream) -> TcpWire
        ensures { result ≡ 0 }
    {
        let timed = keeps_time(&stream);
        TcpWire {
            stream: if timed { Some(stream) } else { None },
            faults: 0,
        }
    }
}

impl Source for TcpWire {
    ghost use Rattle.std.specs.Prelude.{None};

    ghost left = { λ _. None };

    ghost faults = { λ w. w };

    fn read(&mut self, buf: &mut [u8]) -> ReadGot {
        if let Some(stream) = &mut self.stream {
            match stream.read(buf) {
                Ok(0) => return ReadGot::End,
                Ok(count) => return ReadGot::Got(count),
                Err(_) => {}
            }
        }
        self.faults = self.faults.saturating_add(1);
        ReadGot::Failed
    }
}

impl Sink for TcpWire {
    ghost use Rattle.std.specs.Prelude.{None};

    ghost taken = { λ _. None };

    ghost faults = { λ w. w };

    /// A write that takes nothing is a fault.
    fn write(&mut self, piece: &[u8]) -> Wrote {
        if let Some(stream) = &mut self.stream {
            match stream.write(piece) {
                Ok(count) if count > 0 => return Wrote::Took(count),
                _ => {}
            }
        }
        self.faults = self.faults.saturating_add(1);
        Wrote::Failed
    }
}

impl Wire for TcpWire {
    ghost use Rattle.std.specs.Prelude.{refl};

    ghost read_keeps = { λ _ _ _ _. refl };

    ghost write_keeps = { λ _ _ _ _. refl };

    ghost one_count = { λ _. refl };
}

/// A door with a handle of its own of one listener, which several doors share. Contracts see it as its
/// count of faults. It never answers Closed; every error of the operating system is a fault.
#[derive(Drop)]
pub struct TcpDoor {
    listener: Option<TcpListener>,
    faults: u64,
}

impl Model for TcpDoor {
    ghost use Rattle.std.specs.Prelude.{ℕ};

    ghost Value = { ℕ };

    ghost view = { λ d. d.faults };
}

impl TcpDoor {
    /// A door of this listener, with no fault yet. A door of a listener that couldn't be opened, or
    /// shared, fails at each accept.
    pub fn new(listener: Option<&TcpListener>) -> TcpDoor
        ensures { result ≡ 0 }
    {
        let listener = match listener {
            Some(listener) => listener.try_clone().ok(),
            None => None,
        };
        TcpDoor {
            listener,
            faults: 0,
        }
    }
}

impl Door for TcpDoor {
    ghost use Rattle.std.specs.Prelude.{None};

    type Wire = TcpWire;

    ghost coming = { λ _. None };

    ghost returned = { λ _. None };

    // contracts aren't told how many are out, but that there may be one
    ghost out = { λ _. 1 };

    ghost faults = { λ d. d };

    fn accept(&mut self) -> Accepted<TcpWire> {
        if let Some(listener) = &self.listener {
            if let Ok((stream, _)) = listener.accept() {
                return Accepted::Wire(TcpWire::new(stream));
            }
        }
        self.faults = self.faults.saturating_add(1);
        Accepted::Failed
    }

    /// The connection is closed.
    fn close(&mut self, _wire: TcpWire) {}
}
