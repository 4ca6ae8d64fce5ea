// A table judged and, in the same pass, decoded: its rules stand in an array that the caller lends.
ghost use Rattle.std.specs.Prelude.{◌≡◌, ℕ, ◌<◌};
ghost use Rattle.lists.specs.Lists.{All};
ghost use Rattle.sets.specs.Inner.{states_in, set_of};
ghost use Rattle.records.specs.Bytes.{numbers};
ghost use Rattle.records.specs.Answers.{reading_of};
ghost use Rattle.automaton.specs.Table as table;
ghost use Rattle.automaton.specs.Automaton.{WellFormed};
ghost use Rattle.automaton.specs.Row.{rules_of};
ghost use Rattle.automaton.specs.Inner.{RowsRoom};

use crate::head::Head;
use crate::row::Row;
use crate::shared::TableRef;
use crate::table::Size;
use records::Refusal;
use sets::StateSet;
use std::marker::Model;

// A decoded table: contracts see the automaton that it holds, which is well-formed; its set has no other states. Its ranks are a part of the table's bytes.
#[derive(Drop)]
pub struct Table<'t, 'r> {
    pub states: usize,
    pub ranks: &'t [u8],
    pub finals: StateSet,
    pub rules: &'r mut [Row],
}

impl<'t, 'r> Model for Table<'t, 'r> {
    ghost use Rattle.automaton.specs.Automaton.{Automaton, WellFormed};

    ghost Value = { Automaton };

    ghost use Rattle.automaton.specs.Decoded.{automaton_of};

    ghost view = { automaton_of };

    ghost use Rattle.sets.specs.Inner.{Below};

    ghost invariant = { λ t. WellFormed (automaton_of t) × Below t.states t.finals.words };
}

impl<'t, 'r> Table<'t, 'r> {
    ghost use Rattle.automaton.specs.Decoded.{automaton_in, size_of};

    // A table of these parts. States of the set that it does not have are left out.
    pub fn new(states: usize, ranks: &'t [u8], finals: StateSet, rules: &'r mut [Row]) -> Self
        requires { WellFormed (automaton_in states ranks.now finals.words rules.old) }
        ensures { result ≡ automaton_in states ranks.now finals.words rules.old }
    {
        Table {
            states,
            ranks,
            finals: finals.meet(StateSet::below(states)),
            rules,
        }
    }

    // The same table, with its rules shared.
    pub fn view(&self) -> TableRef<'_>
        ensures { result ≡ self.now }
    {
        TableRef {
            states: self.states,
            ranks: self.ranks,
            finals: self.finals,
            rules: self.rules,
        }
    }

    // Its counts.
    pub fn size(&self) -> Size
        ensures value { result ≡ size_of self.now }
        ensures well_formed { WellFormed self.now }
    {
        self.view().size()
    }

    pub fn ranks(&self) -> &[u8]
        ensures { result.now ≡ self.now.ranks }
    {
        self.view().ranks()
    }

    pub fn finals(&self) -> StateSet
        ensures { self.now.finals ≡ states_in 256 result.words }
    {
        self.view().finals()
    }

    pub fn rules(&self) -> &[Row]
        ensures { rules_of result.now ≡ self.now.rules }
    {
        self.view().rules()
    }
}

// The set of the two-byte numbers of `b`.
fn set_of(b: &[u8]) -> StateSet
    requires { All (λ (q : ℕ). q < 256) (numbers b.now) }
    ensures { result.words ≡ set_of (numbers b.now) }
{
    let mut set = StateSet::empty();
    for q in b.chunks_exact(2) {
        set.insert(q[0]);
    }
    set
}

// Judges a table as `judge` does and decodes it: its rules to the start of the lent array, which is for work: what a refused table leaves there means
// nothing.
pub fn decode<'t, 'r>(t: &'t [u8], rows: &'r mut [Row]) -> Result<Table<'t, 'r>, Refusal>
    requires { RowsRoom t.now rows.old }
    ensures { reading_of result ≡ table.judge t.now }
{
    let head = Head::judge(t)?;
    for (i, body) in head.rules().enumerate() {
        rows[i] = Row::read(body?);
    }
    Ok(Table {
        states: head.size.states,
        ranks: head.ranks,
        finals: set_of(head.finals),
        rules: &mut rows[..head.size.rules],
    })
}
