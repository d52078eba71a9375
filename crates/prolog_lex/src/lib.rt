//! The tokens of a Prolog text, and what each stands for (ISO/IEC 13211-1, 6.4), here with names past ASCII.
#![tactic(auto)]

mod classes;
mod digits;
mod front;
mod integers;
mod lexer;
mod quotes;
mod token;
mod values;

pub use lexer::tokens;
pub use token::{LexFault, Token, TokenKind, TokenValue};
pub use values::value;
