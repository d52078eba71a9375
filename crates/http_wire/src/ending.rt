// Where a head ends.
ghost use Rattle.std.specs.Prelude.{◌≡◌};
ghost use Rattle.http_wire.specs.Endings.{after, places, is_over};

/// How far bytes have come towards the empty line that ends a head.
#[derive(Clone, Copy, Drop)]
pub enum Place {
    /// No line but empty ones was begun.
    Before,
    /// Within a line that isn't empty.
    Line,
    /// Behind a line that isn't empty, in one that has been empty so far.
    Start,
    /// Behind an empty line that came after another line.
    Over,
}

impl Place {
    /// The place one byte later.
    fn after(self, byte: u8) -> Place
        ensures { result ≡ after self byte }
    {
        match self {
            Place::Before => {
                if byte == b'\r' || byte == b'\n' {
                    Place::Before
                } else {
                    Place::Line
                }
            }
            Place::Line => {
                if byte == b'\n' {
                    Place::Start
                } else {
                    Place::Line
                }
            }
            Place::Start => {
                if byte == b'\n' {
                    Place::Over
                } else if byte == b'\r' {
                    Place::Start
                } else {
                    Place::Line
                }
            }
            Place::Over => Place::Over,
        }
    }

    /// The place behind these bytes.
    pub fn behind(self, bytes: &[u8]) -> Place
        ensures { result ≡ places self bytes.now }
    {
        let mut place = self;
        'bytes: for byte in bytes {
            place = place.after(*byte);
        }
        place
    }

    /// Whether a head has ended.
    pub fn is_over(self) -> bool
        ensures { result ≡ is_over self }
    {
        match self {
            Place::Over => true,
            _ => false,
        }
    }
}
