ghost use Rattle.std.specs.Prelude.{◌≡◌, map};
ghost use Rattle.cmdline.specs.Jobs.{verb_named, operands_of, options_of};

/// Which command is named.
#[derive(Clone, Copy, Drop)]
pub enum Verb {
    Session,
    Local,
    Check,
    Demo,
    Serve,
    Rpc,
}

impl Verb {
    /// The command of this name; `None` exactly where no command has it.
    pub fn named(name: &str) -> Option<Verb>
        ensures { result ≡ verb_named name.now }
    {
        match name {
            "session" => Some(Verb::Session),
            "local" => Some(Verb::Local),
            "check" => Some(Verb::Check),
            "demo" => Some(Verb::Demo),
            "serve" => Some(Verb::Serve),
            "rpc" => Some(Verb::Rpc),
            _ => None,
        }
    }

    /// The names of its operands, in order.
    pub fn operands(self) -> &'static [&'static str]
        ensures { map (λ s. s.now) result.now ≡ operands_of self }
    {
        match self {
            Verb::Session | Verb::Serve => &[],
            Verb::Local | Verb::Check => &["goal"],
            Verb::Demo => &["people"],
            Verb::Rpc => &["host", "port", "goal"],
        }
    }

    /// The names of its options.
    pub fn options(self) -> &'static [&'static str]
        ensures { map (λ s. s.now) result.now ≡ options_of self }
    {
        match self {
            Verb::Session => &[],
            Verb::Local => &["limit", "application"],
            Verb::Check => &["application"],
            Verb::Demo => &["chunk"],
            Verb::Serve => &["port", "doors", "workers", "slots", "connections", "idle"],
            Verb::Rpc => &["chunk", "limit", "application"],
        }
    }
}
