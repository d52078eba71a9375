// How many steps a query may make, by the application.
ghost use Rattle.std.specs.Prelude.{◌≡◌, ◌≤◌};
ghost use Rattle.request_text.specs.Limits.{greatest_limit, default_settings};

use event_core::{MAX_CHUNK, MAX_LIMIT, Settings};
use term_core::App;

/// The greatest limit of steps that a pengine of an application may name; the least is 1. School has 100,000, and no application more than
/// [`MAX_LIMIT`](event_core::MAX_LIMIT).
pub fn greatest_limit(app: App) -> u64
    ensures { result ≡ greatest_limit app }
{
    match app {
        App::School => MAX_LIMIT.min(100_000),
        App::Sandbox | App::Numbers => MAX_LIMIT,
    }
}

/// The settings of a pengine that names none: the default ones, but no limit above the application's greatest.
pub fn default_settings(app: App) -> Settings
    ensures settings { result ≡ default_settings app }
    ensures chunk { result.chunk ≤ MAX_CHUNK }
    ensures limit { result.limit ≤ greatest_limit app }
{
    let default = Settings::DEFAULT;
    Settings {
        limit: default.limit.min(greatest_limit(app)),
        ..default
    }
}
