ghost use Rattle.std.specs.Prelude.{◌≡◌};
ghost use Rattle.term_core.specs.Apps.{app_name, app_named};

/// An application: what a pengine is created in, which gives it its predicates.
#[derive(Clone, Copy, Debug, Drop, PartialEq, Eq)]
pub enum App {
    /// The sandbox alone, `pengine_sandbox`.
    Sandbox,
    /// The application `school`.
    School,
    /// The application `numbers`.
    Numbers,
}

impl App {
    /// The application of this name; `None` exactly where no application has it.
    pub fn named(name: &str) -> Option<App>
        ensures { result ≡ app_named name.now }
    {
        match name {
            "pengine_sandbox" => Some(App::Sandbox),
            "school" => Some(App::School),
            "numbers" => Some(App::Numbers),
            _ => None,
        }
    }

    /// The application's name.
    pub fn name(self) -> &'static str
        ensures { result.now ≡ app_name self }
    {
        match self {
            App::Sandbox => "pengine_sandbox",
            App::School => "school",
            App::Numbers => "numbers",
        }
    }
}
