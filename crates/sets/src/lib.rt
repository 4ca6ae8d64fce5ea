// Sets of states in words.
#![tactic(auto)]

mod set;
mod states;

// Exported for the crates above.
pub use set::{StateSet, is_member};
pub use states::States;
