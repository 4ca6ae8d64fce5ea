// A table up to its rules, and its rules one after the other.
ghost use Rattle.std.specs.Prelude.{ℕ, ◌≤◌, length, get_or};
ghost use Rattle.std.specs.Iterator.{YieldsFirstBy, item_count};

use crate::table::{
    Size, due, judge_finals, judge_ranks, judge_rule, judge_size, record_end, size_in,
};
use records::{Kind, Refusal, body};

// The first three records of a table, judged.
#[derive(Clone, Copy, Debug)]
pub struct Head<'a> {
    // The counts.
    pub size: Size,
    // The body of the second record: a byte to a symbol.
    pub ranks: &'a [u8],
    // The body of the third record: two bytes to a final state.
    pub finals: &'a [u8],
    // What stands behind the third record.
    pub rules: &'a [u8],

    // The limits, in proofs too.
    pub ghost few: { (size.states ≤ 256) × (size.rules ≤ 1024) },
    pub ghost ranked: { (length ranks.now ≤ 256) × ((i : ℕ) → get_or ranks.now i 0 ≤ 8) },
}

impl<'a> Head<'a> {
    ghost use Rattle.std.specs.Prelude.{◌≡◌};
    ghost use Rattle.lists.specs.Lists.{All};
    ghost use Rattle.records.specs.Read.{map_read};
    ghost use Rattle.records.specs.Answers.{reading_of};
    ghost use Rattle.automaton.specs.Table.{judge_record, judge_rule};
    ghost use Rattle.automaton.specs.Inner.{parts_of, judge_head, bodies, bodies_left, Judged};

    // The head of a table, or the first cause of refusal in it.
    pub fn judge(t: &'a [u8]) -> Result<Self, Refusal>
        ensures { map_read parts_of (reading_of result) ≡ judge_head t.now }
    {
        let end = record_end(t, Kind::Size, Refusal::WrongKind, judge_size)?;
        let size = size_in(body(t));
        let rest = &t[end..];
        let end = record_end(
            rest,
            Kind::Ranks,
            Refusal::WrongKind,
            |b| judge_ranks(b, size.symbols),
        )?;
        let ranks = body(rest);
        let rest = &rest[end..];
        let end = record_end(
            rest,
            Kind::Finals,
            Refusal::WrongKind,
            |b| judge_finals(b, size.states),
        )?;
        Ok(Head {
            size,
            ranks,
            finals: body(rest),
            rules: &rest[end..],
        })
    }

    // Where the next rule ends.
    fn rule_end(&self, t: &[u8]) -> Result<usize, Refusal>
        ensures { reading_of result ≡ judge_record 4 7 (judge_rule self.now.size.states self.now.ranks.now) t.now }
    {
        let n = self.size.states;
        let ranks = self.ranks;
        record_end(
            t,
            Kind::Rule,
            Refusal::WrongRuleCount,
            |b| judge_rule(b, n, ranks),
        )
    }

    // The bodies of the rules behind it, each judged when it is due.
    pub fn rules(&self) -> Rules<'a>
        ensures left { bodies_left result ≡ bodies self.now.size.states self.now.ranks.now self.now.size.rules self.now.rules.now }
        ensures judged { All Judged (bodies_left result) }
    {
        Rules {
            head: *self,
            rest: self.rules,
            left: self.size.rules,
        }
    }
}

// What is left of a table's rules: how many of them, and the bytes where they stand.
#[derive(Debug, Drop)]
pub struct Rules<'a> {
    head: Head<'a>,
    rest: &'a [u8],
    left: usize,
}

impl<'a> Rules<'a> {
    ghost use Rattle.std.specs.Prelude.{◌≡◌};
    ghost use Rattle.records.specs.Answers.{reading_of};
    ghost use Rattle.automaton.specs.Inner.{next_end};

    // Where the next rule ends; after the last one there is none.
    fn next_end(&self) -> Result<usize, Refusal>
        ensures { reading_of result ≡ next_end self.now.head.size.states self.now.head.ranks.now self.now.left self.now.rest.now }
    {
        if self.left > 0 {
            return self.head.rule_end(self.rest);
        }
        due(self.rest, Kind::Rule, Refusal::WrongRuleCount)?;
        Err(Refusal::WrongRuleCount)
    }
}

impl<'a> Iterator for Rules<'a> {
    ghost use Rattle.automaton.specs.Inner.{body_read, bodies_left};

    type Item = Result<&'a [u8], Refusal>;

    ghost next_gives = { YieldsFirstBy body_read bodies_left };

    ghost remaining = { item_count bodies_left };

    // After a refusal nothing is left.
    fn next(&mut self) -> Option<Result<&'a [u8], Refusal>> {
        let rest = self.rest;
        if self.left == 0 && rest.is_empty() {
            return None;
        }
        match self.next_end() {
            Ok(end) => {
                self.left -= 1;
                self.rest = &rest[end..];
                Some(Ok(body(rest)))
            }
            Err(refusal) => {
                self.left = 0;
                self.rest = &[];
                Some(Err(refusal))
            }
        }
    }
}
