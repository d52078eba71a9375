// The words of a command.
ghost use Rattle.std.specs.Prelude.{◌≡◌, ◌↔◌, IsTrue, None, Some, MatchOption, map, string_bytes};
ghost use Rattle.pengines.specs.Words.{IsSession, given, plain, operand_of_two, operand_of, goal_of};

/// Whether the words are exactly `session`.
pub fn is_session(words: &[String]) -> bool
    ensures { IsTrue result ↔ IsSession words.now }
{
    match words {
        [word] => word.as_str() == "session",
        _ => false,
    }
}

/// A word that isn't empty.
fn given(word: &str) -> Option<&str>
    ensures { MatchOption result (given word.now ≡ None) (λ g. given word.now ≡ Some g.now) }
{
    match word.as_bytes().first() {
        Some(_) => Some(word),
        None => None,
    }
}

/// A word that isn't empty and doesn't begin with `-`.
fn plain(word: &str) -> Option<&str>
    ensures { MatchOption result (plain word.now ≡ None) (λ g. plain word.now ≡ Some g.now) }
{
    match word.as_bytes().first() {
        Some(byte) => {
            if *byte == b'-' {
                return None;
            }
            Some(word)
        }
        None => None,
    }
}

/// The operand of two words, one of which is `--`.
fn operand_of_two<'a>(first: &'a str, second: &'a str) -> Option<&'a str>
    ensures { MatchOption result (operand_of_two first.now second.now ≡ None)
        (λ g. operand_of_two first.now second.now ≡ Some g.now) }
{
    if first == "--" {
        return given(second);
    }
    if second == "--" {
        return plain(first);
    }
    None
}

/// The only operand among words without options. One that begins with `-` stands behind `--`.
fn operand_of(words: &[String]) -> Option<&str>
    ensures { MatchOption result (operand_of (map string_bytes words.now) ≡ None)
        (λ g. operand_of (map string_bytes words.now) ≡ Some g.now) }
{
    let (first, rest) = words.split_first()?;
    let Some((second, others)) = rest.split_first() else {
        return plain(first);
    };
    if !others.is_empty() {
        return None;
    }
    operand_of_two(first, second)
}

/// The goal of the words `check GOAL`, which isn't empty. A goal that begins with `-` stands behind
/// `--`. `None` where the words are others.
pub fn goal_of(words: &[String]) -> Option<&str>
    ensures { MatchOption result (goal_of (map string_bytes words.now) ≡ None)
        (λ g. goal_of (map string_bytes words.now) ≡ Some g.now) }
{
    let (command, operands) = words.split_first()?;
    if command.as_str() != "check" {
        return None;
    }
    operand_of(operands)
}
