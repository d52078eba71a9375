// A script's source text, and its request lines.
ghost use Rattle.std.specs.Prelude.{◌≡◌, ◌≤◌, length, position, map};
ghost use Rattle.std.specs.Str.{IsCharBoundary};
ghost use Rattle.std.specs.Str.Lines.{lines};
ghost use Rattle.request_text.specs.Spelled.{is_rule, is_feed, line_size, line_start, parts};

/// Where the first line feed is.
fn feed_in(text: &str) -> Option<usize>
    ensures { result ≡ position is_feed text.now }
{
    text.as_bytes().iter().position(|byte| *byte == b'\n')
}

/// The size of the first line of a text with its line end.
fn line_size(text: &str) -> usize
    ensures size { result ≡ line_size text.now }
    ensures boundary { IsCharBoundary text.now result }
{
    match feed_in(text) {
        Some(at) => at + 1,
        None => text.len(),
    }
}

/// Where the line begins that has so many lines before it.
fn line_start(text: &str, count: usize) -> usize
    ensures start { result ≡ line_start count text.now }
    ensures boundary { IsCharBoundary text.now result }
{
    let mut at = 0;
    for line in 0..count {
        at += line_size(&text[at..]);
    }
    at
}

/// Which line is the first that is `---`.
fn rule_in(text: &str) -> Option<usize>
    ensures { result ≡ position is_rule (lines text.now) }
{
    text.lines().position(|line| line == "---")
}

/// What stands before the first line that is `---`, and what stands behind it. Without such a line nothing stands behind it.
pub(crate) fn parts(text: &str) -> (&str, &str)
    ensures source { result.0.now ≡ (parts text.now).source }
    ensures requests { result.1.now ≡ (parts text.now).requests }
{
    let Some(rule) = rule_in(text) else {
        return (text, "");
    };
    let start = line_start(text, rule);
    let rest = &text[start..];
    let size = line_size(rest);
    (&text[..start], &rest[size..])
}
