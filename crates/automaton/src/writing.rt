// A decoded table written back into bytes, part after part.
#![tactic(auto, using(crate::proofs::writing::Parts::by_table), unfolding(crate::specs::Decoded::size_of, crate::specs::Table::encode_rule))]

ghost use Rattle.std.specs.Prelude.{◌≡◌, ◌∷◌, [], ◌+◌, ◌*◌, ◌≤◌, length};
ghost use Rattle.sets.specs.Inner.{states_in};
ghost use Rattle.records.specs.Bytes.{fields};
ghost use Rattle.records.specs.Record.{encode_record};
ghost use Rattle.records.specs.Pen.{put_in, HasRoom};
ghost use Rattle.records.specs.Output.{written, written_over};
ghost use Rattle.records.specs.Answers.{reading_of};
ghost use Rattle.automaton.specs.Table.{encode, encode_rule, encode_rules};
ghost use Rattle.automaton.specs.Row.{rule_of, rules_of};

use crate::row::Row;
use crate::shared::TableRef;
use crate::table::Size;
use records::{Kind, Pen, Refusal};
use sets::StateSet;

// The states of the set, in order, two bytes each.
fn put_states(pen: &mut Pen, set: StateSet)
    requires { HasRoom (length (fields (states_in 256 set.words))) pen.old }
    ensures { pen.new ≡ put_in (fields (states_in 256 set.words)) pen.old }
{
    for q in set.states() {
        pen.put2(u16::from(q));
    }
}

// A rule as a record.
fn put_rule(pen: &mut Pen, rule: &Row)
    requires { HasRoom (length (encode_rule (rule_of rule.now))) pen.old }
    ensures { pen.new ≡ put_in (encode_rule (rule_of rule.now)) pen.old }
{
    let children = rule.children();
    pen.put_head(u16::from(Kind::Rule), 4 + 2 * children.len());
    pen.put2(u16::from(rule.symbol()));
    pen.put2(u16::from(rule.target()));
    pen.put_fields(children);
}

// How many bytes some rules take.
fn rules_length(rules: &[Row]) -> usize
    requires { length rules.now ≤ 1024 }
    ensures value { result ≡ length (encode_rules (rules_of rules.now)) }
    ensures upper_bound { result ≤ 26 * length rules.now }
{
    rules
        .iter()
        .map(|rule| 10 + 2 * rule.children().len())
        .sum()
}

// Some rules, one after the other.
fn put_rules(pen: &mut Pen, rules: &[Row])
    requires { HasRoom (length (encode_rules (rules_of rules.now))) pen.old }
    ensures { pen.new ≡ put_in (encode_rules (rules_of rules.now)) pen.old }
{
    for rule in rules {
        put_rule(pen, rule);
    }
}

// The first record: the counts.
fn put_size(pen: &mut Pen, size: Size)
    requires room { HasRoom 12 pen.old }
    requires states_bound { (size.states ≤ 256) × ((size.symbols ≤ 256) × (size.rules ≤ 1024)) }
    ensures { pen.new
        ≡ put_in (encode_record 1 (fields (size.states ∷ size.symbols ∷ size.rules ∷ []))) pen.old }
{
    pen.put_head(u16::from(Kind::Size), 6);
    pen.put2(size.states as u16);
    pen.put2(size.symbols as u16);
    pen.put2(size.rules as u16);
}

// Some bytes, one after the other. They may stand anywhere: one copy of them all, which might overlap, would ask for the C library's `memmove`.
fn put_each(pen: &mut Pen, bytes: &[u8])
    requires { HasRoom (length bytes.now) pen.old }
    ensures { pen.new ≡ put_in bytes.now pen.old }
{
    for byte in bytes {
        pen.put(&[*byte]);
    }
}

// The second record: the ranks.
fn put_ranks(pen: &mut Pen, ranks: &[u8])
    requires few { length ranks.now ≤ 256 }
    requires room { HasRoom (6 + length ranks.now) pen.old }
    ensures { pen.new ≡ put_in (encode_record 2 ranks.now) pen.old }
{
    pen.put_head(u16::from(Kind::Ranks), ranks.len());
    put_each(pen, ranks);
}

// The third record: the final states.
fn put_finals(pen: &mut Pen, finals: StateSet)
    requires { HasRoom (6 + 2 * length (states_in 256 finals.words)) pen.old }
    ensures { pen.new ≡ put_in (encode_record 3 (fields (states_in 256 finals.words))) pen.old }
{
    pen.put_head(u16::from(Kind::Finals), 2 * finals.len());
    put_states(pen, finals);
}

// Writes a decoded table to the start of `out` and returns its length; refusal 13, and nothing written, where the room is short.
pub fn write(table: &TableRef, out: &mut [u8]) -> Result<usize, Refusal>
    ensures result_value { reading_of result ≡ written (encode table.now) out.old }
    ensures out_after { out.new ≡ written_over (encode table.now) out.old }
{
    let size = table.size();
    let finals = table.finals();
    let rules = table.rules();
    let length = 24 + size.symbols + 2 * finals.len() + rules_length(rules);
    if out.len() < length {
        return Err(Refusal::ShortOutput);
    }
    let mut pen = Pen::new(out);
    put_size(&mut pen, size);
    put_ranks(&mut pen, table.ranks());
    put_finals(&mut pen, finals);
    put_rules(&mut pen, rules);
    Ok(length)
}
