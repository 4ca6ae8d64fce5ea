// Evaluates a tree in bytes against a decoded table.
#![tactic(auto)]

mod entry;
mod evaluation;

// Exported for the crates above.
pub use evaluation::{Answer, Subtree, accept_tree};
