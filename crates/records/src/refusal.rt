// The thirteen causes of document 01's refusal table, in its order.
ghost use Rattle.std.specs.Prelude.{◌≡◌};
ghost use Rattle.records.specs.Refusal.{number_of};

use std::error::Error;
use std::fmt;

#[derive(Clone, Copy, Debug, PartialEq, Eq)]
pub enum Refusal {
    // 1: what is left holds no whole record, or its length is below 2.
    BrokenRecord,
    // 2: a record of another kind than the one that is due, or a table that ends before its third record.
    WrongKind,
    // 3: a body's length differs from the layout.
    WrongLength,
    // 4: states, symbols, rules or a rank above its limit.
    AboveLimit,
    // 5: a symbol or a state of a table not below their number.
    OutOfRange,
    // 6: final states that do not strictly increase.
    FinalsOutOfOrder,
    // 7: a rule too many, or too few.
    WrongRuleCount,
    // 8: a tree that is not one whole record of kind 16, or has an odd body.
    NotATree,
    // 9: a tree's symbol not below the number of symbols.
    UnknownSymbol,
    // 10: a node with fewer trees before it than its rank, or bytes that do not end with one tree.
    Unbalanced,
    // 11: too many nodes, or too many trees waiting.
    TreeAboveLimit,
    // 12: a state number in a query not below the number of states.
    UnknownState,
    // 13: the output is shorter than the result.
    ShortOutput,
}

// Document 01's number of a refusal.
impl From<Refusal> for u32 {
    ghost from_gives = { λ cause number. number ≡ number_of cause };

    fn from(cause: Refusal) -> u32 {
        match cause {
            Refusal::BrokenRecord => 1,
            Refusal::WrongKind => 2,
            Refusal::WrongLength => 3,
            Refusal::AboveLimit => 4,
            Refusal::OutOfRange => 5,
            Refusal::FinalsOutOfOrder => 6,
            Refusal::WrongRuleCount => 7,
            Refusal::NotATree => 8,
            Refusal::UnknownSymbol => 9,
            Refusal::Unbalanced => 10,
            Refusal::TreeAboveLimit => 11,
            Refusal::UnknownState => 12,
            Refusal::ShortOutput => 13,
        }
    }
}

impl fmt::Display for Refusal {
    fn fmt<W: fmt::Write>(&self, f: &mut fmt::Formatter<W>) -> fmt::Result {
        f.write_str(match self {
            Refusal::BrokenRecord => "no whole record",
            Refusal::WrongKind => "a record of another kind than the one that is due",
            Refusal::WrongLength => "a body of another length than its layout has",
            Refusal::AboveLimit => "states, symbols, rules or a rank above the limit",
            Refusal::OutOfRange => "a symbol or a state that is not below their number",
            Refusal::FinalsOutOfOrder => "final states that do not strictly increase",
            Refusal::WrongRuleCount => "a rule too many or too few",
            Refusal::NotATree => "no tree record, or one with an odd body",
            Refusal::UnknownSymbol => "a tree's symbol that is not below their number",
            Refusal::Unbalanced => "nodes that do not make one tree",
            Refusal::TreeAboveLimit => "too many nodes, or too many trees that wait",
            Refusal::UnknownState => "a state that is not below their number",
            Refusal::ShortOutput => "an output that is shorter than the result",
        })
    }
}

impl Error for Refusal {}
