/// Why words are no command.
#[derive(Clone, Copy, Debug, Drop, PartialEq, Eq)]
pub enum WordFault {
    /// They name no command, or not as its usage says.
    Refused,
    /// Memory is wanting.
    Memory,
}
