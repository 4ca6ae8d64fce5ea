// Reads and writes tables: bytes to an automaton or a refusal, and an automaton back to bytes.
// What is above this crate works on decoded tables and never reads a table's bytes.
#![tactic(auto)]

mod decoding;
mod head;
mod row;
mod shared;
mod table;
mod writing;

// Calls for everybody, with their answers: they ask nothing of their caller. Those on records are passed on.
pub use records::{Opened, Refusal, body, open};
pub use table::{Size, judge};

// Exported for the crates above. `decode` asks for room in its array.
pub use decoding::{Table, decode};
pub use row::{FEW_RULES, RULES, Row};
pub use shared::TableRef;
pub use writing::write;
