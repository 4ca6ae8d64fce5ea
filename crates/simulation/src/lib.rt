// Checks trees against tables, and answers the queries of the downward simulation preorder of a table's states.
#![tactic(auto)]

mod checking;
mod query;

// Calls for everybody, with their answers: they ask nothing of their caller.
pub use checking::{Checked, Counts, check};
pub use query::{Related, compare, relate};
pub use trees::{Answer, Subtree};
