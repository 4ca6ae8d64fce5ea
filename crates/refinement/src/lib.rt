// Computes the downward simulation preorder of decoded rules, by rounds.
#![tactic(auto)]

mod matching;
mod rounds;

// Exported for the crates above.
pub use matching::Relation;
pub use rounds::simulate;
