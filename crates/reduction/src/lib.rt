// Reduces a table to the one that document 01's six steps give: it accepts the same trees and is never longer.
#![tactic(auto)]

mod blocks;
mod growth;
mod marking;
mod reducing;
mod rows;
mod steps;

// Calls for everybody, with their answers: they ask nothing of their caller.
pub use reducing::{Reduction, reduce};

// Exported for the crate above.
pub use steps::{Short, reduce_table};
