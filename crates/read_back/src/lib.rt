//! What is written is read again.
//!
//! The text of a term, as `prolog_write` writes it with quotes, is read by the rules of `prolog_read` as the same term, up
//! to the numbers of its variables, and as no other. The law is over the definitions that the contracts of these crates
//! name: the text of a term (`prolog_write`), the tokens of a text (`prolog_lex`), and what they read as (`prolog_grammar`,
//! `prolog_read`). So nothing here runs: the functions carry what is proved.
#![tactic(auto)]

mod laws;
mod sound;

pub use laws::what_is_written_is_read_again;
pub use sound::term_is_sound;
