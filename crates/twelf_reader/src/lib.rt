//! The reader: the trees that texts spell, and where reading stops; and the modules of files.
#![tactic(auto)]

mod assigns;
mod decls;
mod dependencies;
mod dependency_assigns;
mod dependency_decls;
mod dependency_words;
mod file;
mod heads;
mod modules;
mod pieces;
mod texts;
mod words;

pub use dependencies::read_dependencies;
pub use file::{Piece, Pieces, split};
pub use texts::{read_judgement, read_module};
pub use twelf_expressions::ReadFault;
