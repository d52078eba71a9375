ghost use Rattle.std.specs.Prelude.{◌≡◌};
ghost use Rattle.routes.specs.Paths.{allowed, method_name};

/// What a path is for.
#[derive(Clone, Copy, Drop)]
pub enum Endpoint {
    Create,
    Send,
    Pull,
    Abort,
    Destroy,
}

/// The method that a path allows.
#[derive(Clone, Copy, Drop)]
pub enum Allowed {
    Get,
    Post,
}

impl Endpoint {
    /// The one method of its path.
    pub fn allowed(self) -> Allowed
        ensures { result ≡ allowed self }
    {
        match self {
            Endpoint::Pull => Allowed::Get,
            Endpoint::Create | Endpoint::Send | Endpoint::Abort | Endpoint::Destroy => {
                Allowed::Post
            }
        }
    }
}

impl Allowed {
    /// The method's name.
    pub fn name(self) -> &'static str
        ensures { result.now ≡ method_name self }
    {
        match self {
            Allowed::Get => "GET",
            Allowed::Post => "POST",
        }
    }
}
