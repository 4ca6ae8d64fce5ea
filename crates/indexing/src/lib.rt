// An index of decoded rules by symbol or by target.
#![tactic(auto)]

mod index;
mod key;

// Exported for the crates above.
pub use index::Index;
pub use key::{BySymbol, ByTarget, Key};
