//! The primitives over terms on texts: their lengths, characters, numbers and parts.
#![tactic(auto)]

mod atoms;
mod characters;
mod concat;
mod numbers;
mod outcome;
mod parts;
mod spelled;
mod splits;
mod texts;

pub use atoms::atom_spelled;
pub use characters::char_code;
pub use concat::{atom_concat, sub_atom};
pub use numbers::{atom_number, number_spelled};
pub use outcome::TextOutcome;
pub use parts::Parts;
pub use splits::Splits;
pub use texts::atom_length;
