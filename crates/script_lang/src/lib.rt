//! Scripts: what clients call, and when nodes crash and join.
#![tactic(auto)]

mod calls;
mod content;
mod laws;
mod line_words;
mod lines;
mod one_node;
mod parser;
mod script;
mod words;

pub use laws::limit_decides;
pub use one_node::first_foreign_line;
pub use parser::{ScriptRefusal, parse};
pub use script::{Armed, Client, Fate, Line, Script};
