// Numbers, texts and names among the words.
ghost use Rattle.std.specs.Prelude.{◌≡◌, ◌≤◌, IfSome, option_map};
ghost use Rattle.cmdline.specs.Numbers.{numeral, within, number, number_or, some_text, application, greatest_limit, default_limit};

use term_core::App;

/// The number that 1 to 9 decimal digits write; `None` where they aren't that.
fn numeral(digits: &[u8]) -> Option<u32>
    ensures { result ≡ numeral digits.now }
{
    if digits.is_empty() || digits.len() > 9 {
        return None;
    }
    let mut n: u32 = 0;
    'digits: for b in digits {
        if !b.is_ascii_digit() {
            return None;
        }
        n = n * 10 + u32::from(*b - b'0');
    }
    Some(n)
}

/// A number from `least` to `greatest`, which has to be given.
pub fn number(given: Option<&str>, least: u32, greatest: u32) -> Option<u32>
    ensures value { result ≡ number least greatest (option_map (λ s. s.now) given.entry) }
    ensures bound { IfSome result (λ n. n ≤ greatest) }
{
    numeral(given?.as_bytes()).filter(|n| least <= *n && *n <= greatest)
}

/// A number from `least` to `greatest`, or the default where none is given.
pub fn number_or(given: Option<&str>, default: u32, least: u32, greatest: u32) -> Option<u32>
    ensures { result ≡ number_or default least greatest (option_map (λ s. s.now) given.entry) }
{
    match given {
        Some(_) => number(given, least, greatest),
        None => Some(default),
    }
}

/// A port of TCP, which has to be given.
pub fn port(given: Option<&str>) -> Option<u16>
    ensures { result ≡ number 1 65535 (option_map (λ s. s.now) given.entry) }
{
    number(given, 1, 65_535).map(|port| port as u16)
}

/// A text that has to be given, and not empty.
pub fn some_text(given: Option<&str>) -> Option<&str>
    ensures { option_map (λ s. s.now) result ≡ some_text (option_map (λ s. s.now) given.entry) }
{
    given.filter(|text| !text.is_empty())
}

/// The application of a name; the sandbox where none is given.
pub fn application(given: Option<&str>) -> Option<App>
    ensures { result ≡ application (option_map (λ s. s.now) given.entry) }
{
    match given {
        Some(name) => App::named(name),
        None => Some(App::Sandbox),
    }
}

/// The most steps that a query of the application makes.
fn greatest_limit(app: App) -> u32
    ensures { result ≡ greatest_limit app }
{
    match app {
        App::Sandbox | App::Numbers => 100_000_000,
        App::School => 100_000,
    }
}

/// A limit of steps for a query of the application.
pub fn step_limit(given: Option<&str>, app: App) -> Option<u64>
    ensures { result ≡ number_or (default_limit app) 1 (greatest_limit app) (option_map (λ s. s.now) given.entry) }
{
    let greatest = greatest_limit(app);
    let limit = number_or(given, greatest.min(1_000_000), 1, greatest)?;
    Some(u64::from(limit))
}
