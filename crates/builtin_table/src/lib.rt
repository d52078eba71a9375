//! The table of built-in predicates, and what the definitions of resolution and of its engine share
//! about them: the error terms, the values of expressions and the results of each primitive.
#![tactic(auto)]

mod classes;
mod errors;
mod functions;
mod row;
mod spelling;
mod standard;
mod table;

pub use classes::{class_in, reaches_outside, takes};
pub use errors::{
    domain_error, error, evaluation_error, existence_error, indicator, instantiation_error,
    representation_error, resource_error, syntax_error, type_error,
};
pub use functions::{Binary, Fault, Relation, Unary};
pub use row::{Class, Row};
pub use spelling::Spelling;
pub use table::Table;
