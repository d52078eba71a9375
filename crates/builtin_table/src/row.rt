/// What kind of predicate a row of the table is.
#[derive(Clone, Copy, Debug, Drop, PartialEq, Eq)]
pub enum Class {
    /// A control construct (ISO 13211-1, 7.8), or a predicate that the control of a run gives a meaning.
    Control,
    /// A primitive that reaches nothing outside of its run.
    Safe,
    /// A predicate that runs goals among its arguments.
    Meta,
    /// A predicate of the library that runs goals among its arguments.
    Library,
    /// A predicate that would reach outside.
    Outside,
}

/// A row of the table of built-in predicates.
#[derive(Clone, Copy, Debug, Drop, PartialEq, Eq)]
pub struct Row {
    /// What kind of predicate it is.
    pub class: Class,
    /// Which arguments are goals, by their places: -1 for none, 0 to 7 for a goal to which so many arguments are added, and
    /// 8 for a goal that may stand behind `^`.
    pub metas: [i8; 8],
}
