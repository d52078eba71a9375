/// How terms are the characters of a text.
#[derive(Clone, Copy, Debug, Drop, PartialEq, Eq)]
pub enum Spelling {
    /// An atom of one character for each.
    Characters,
    /// The number in Unicode of each.
    Codes,
}
