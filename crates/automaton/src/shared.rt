// A decoded table whose rules are lent shared: what a function takes that only reads a table.
ghost use Rattle.std.specs.Prelude.{◌≡◌};
ghost use Rattle.sets.specs.Inner.{states_in};
ghost use Rattle.automaton.specs.Automaton.{WellFormed};
ghost use Rattle.automaton.specs.Row.{rules_of};

use crate::row::Row;
use crate::table::Size;
use sets::StateSet;
use std::marker::Model;

// As `Table`, but with its rules shared: contracts see the automaton that it holds, which is well-formed; its set of final states has no others.
#[derive(Drop)]
pub struct TableRef<'a> {
    pub states: usize,
    pub ranks: &'a [u8],
    pub finals: StateSet,
    pub rules: &'a [Row],
}

impl<'a> Model for TableRef<'a> {
    ghost use Rattle.automaton.specs.Automaton.{Automaton, WellFormed};

    ghost Value = { Automaton };

    ghost use Rattle.automaton.specs.Decoded.{automaton_in};

    ghost view = { λ t. automaton_in t.states t.ranks.now t.finals.words t.rules.now };

    ghost use Rattle.sets.specs.Inner.{Below};

    ghost invariant = { λ t. WellFormed (automaton_in t.states t.ranks.now t.finals.words t.rules.now)
        × Below t.states t.finals.words };
}

impl<'a> TableRef<'a> {
    ghost use Rattle.automaton.specs.Decoded.{automaton_in, size_of};

    // A table of these parts. States of the set that it does not have are left out.
    pub fn new(states: usize, ranks: &'a [u8], finals: StateSet, rules: &'a [Row]) -> Self
        requires { WellFormed (automaton_in states ranks.now finals.words rules.now) }
        ensures { result ≡ automaton_in states ranks.now finals.words rules.now }
    {
        TableRef {
            states,
            ranks,
            finals: finals.meet(StateSet::below(states)),
            rules,
        }
    }

    // Its counts.
    pub fn size(&self) -> Size
        ensures value { result ≡ size_of self.now }
        ensures well_formed { WellFormed self.now }
    {
        Size {
            states: self.states,
            symbols: self.ranks.len(),
            rules: self.rules.len(),
        }
    }

    pub fn ranks(&self) -> &'a [u8]
        ensures { result.now ≡ self.now.ranks }
    {
        self.ranks
    }

    pub fn finals(&self) -> StateSet
        ensures { self.now.finals ≡ states_in 256 result.words }
    {
        self.finals
    }

    pub fn rules(&self) -> &'a [Row]
        ensures { rules_of result.now ≡ self.now.rules }
    {
        self.rules
    }
}
