// Writes the lines of the report on a table.
#![tactic(auto)]

mod lines;

// The call for everybody: it asks nothing of its caller.
pub use lines::report;
