// Records in bytes: opened and written. The refusals and the kinds of records, each with document 01's number.
#![tactic(auto)]

mod bytes;
mod kind;
mod output;
mod record;
mod refusal;

// Calls for everybody, with their answers: they ask nothing of their caller.
pub use record::{Opened, body, open};
pub use refusal::Refusal;

// Exported for the crates above: these ask for numbers or arrays in range.
pub use bytes::number2;
pub use kind::Kind;
pub use output::Pen;
