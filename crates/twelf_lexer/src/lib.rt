//! The lexer: what a text is cut into.
#![tactic(auto)]

mod comment;
mod fault;
mod lexeme;
mod lexer;
mod list;
mod names;
mod path;
mod row;
mod scan;
mod sign;
mod step;
mod token;

pub use fault::LexFault;
pub use lexeme::{lexeme_at, open_comment};
pub use lexer::{Cut, lex, tokens};
pub use list::TokenList;
pub use names::NameTable;
pub use path::path_of;
pub use sign::{Lexeme, PercentWord, Sign};
pub use token::{Token, TokenKind};
