// Tables, judged record by record.
ghost use Rattle.std.specs.Prelude.{◌≡◌, List, ℕ, ◌≤◌, length, leb, ltb};
ghost use Rattle.lists.specs.Lists as lists;
ghost use Rattle.records.specs.Bytes.{numbers};
ghost use Rattle.records.specs.Record.{opened, body_of};
ghost use Rattle.records.specs.Read.{Read};
ghost use Rattle.records.specs.Kind.{code_of};
ghost use Rattle.records.specs.Refusal.{number_of};
ghost use Rattle.records.specs.Answers.{reading_of};
ghost use Rattle.automaton.specs.Table as table;
ghost use Rattle.automaton.specs.Decoded.{sized};
ghost use Rattle.automaton.specs.Inner.{Reads};
ghost use Rattle.std.specs.Fn.{FnOnceReturnsAt};

use crate::head::Head;
use records::{Kind, Opened, Refusal, body, number2, open};

// The counts of a table: n, m and k.
#[derive(Clone, Copy, Debug, PartialEq, Eq)]
pub struct Size {
    pub states: usize,
    pub symbols: usize,
    pub rules: usize,
}

// Where the next record ends, if it is of the kind that is due; `missing` where nothing is left.
pub fn due(t: &[u8], kind: Kind, missing: Refusal) -> Result<usize, Refusal>
    ensures { reading_of result ≡ table.due (code_of kind) (number_of missing) (opened t.now) }
{
    let Some(Opened { kind: found, end }) = open(t)? else {
        return Err(missing);
    };
    if found != u16::from(kind) {
        return Err(Refusal::WrongKind);
    }
    Ok(end)
}

// Whether all two-byte numbers of `b` are below n.
fn all_below(b: &[u8], n: usize) -> bool
    ensures { result ≡ lists.all (λ (q : ℕ). ltb q n) (numbers b.now) }
{
    b.chunks_exact(2).all(|q| usize::from(number2(q, 0)) < n)
}

// Whether the two-byte numbers of `b` are strictly increasing.
fn rising(b: &[u8]) -> bool
    ensures { result ≡ lists.rising (numbers b.now) }
{
    b.chunks_exact(2)
        .map(|q| number2(q, 0))
        .is_sorted_by(|p, q| p < q)
}

// Whether all bytes of `b` are at most 8.
fn all_ranks(b: &[u8]) -> bool
    ensures { result ≡ lists.all (λ (x : ℕ). leb x 8) b.now }
{
    b.iter().all(|rank| *rank <= 8)
}

// The counts in the first record's body.
pub fn size_in(b: &[u8]) -> Size
    requires { 6 ≤ length b.now }
    ensures { result ≡ table.size_in b.now }
{
    Size {
        states: usize::from(number2(b, 0)),
        symbols: usize::from(number2(b, 2)),
        rules: usize::from(number2(b, 4)),
    }
}

// The body of the first record: the counts.
pub fn judge_size(b: &[u8]) -> Result<(), Refusal>
    ensures { reading_of result ≡ table.judge_size b.now }
{
    if b.len() != 6 {
        return Err(Refusal::WrongLength);
    }
    let size = size_in(b);
    if size.states > 256 || size.symbols > 256 || size.rules > 1024 {
        return Err(Refusal::AboveLimit);
    }
    Ok(())
}

// The body of the second record: the ranks of m symbols.
pub fn judge_ranks(b: &[u8], m: usize) -> Result<(), Refusal>
    ensures { reading_of result ≡ table.judge_ranks m b.now }
{
    if b.len() != m {
        return Err(Refusal::WrongLength);
    }
    if !all_ranks(b) {
        return Err(Refusal::AboveLimit);
    }
    Ok(())
}

// The body of the third record: the final states, of n.
pub fn judge_finals(b: &[u8], n: usize) -> Result<(), Refusal>
    ensures { reading_of result ≡ table.judge_finals n b.now }
{
    if b.len() % 2 != 0 {
        return Err(Refusal::WrongLength);
    }
    if !all_below(b, n) {
        return Err(Refusal::OutOfRange);
    }
    if !rising(b) {
        return Err(Refusal::FinalsOutOfOrder);
    }
    Ok(())
}

// The body of a rule.
pub fn judge_rule(b: &[u8], n: usize, ranks: &[u8]) -> Result<(), Refusal>
    ensures { reading_of result ≡ table.judge_rule n ranks.now b.now }
{
    if b.len() < 4 {
        return Err(Refusal::WrongLength);
    }
    let symbol = usize::from(number2(b, 0));
    if symbol >= ranks.len() {
        return Err(Refusal::OutOfRange);
    }
    let rank = usize::from(ranks[symbol]);
    if b.len() != 4 + 2 * rank {
        return Err(Refusal::WrongLength);
    }
    if !all_below(&b[2..], n) {
        return Err(Refusal::OutOfRange);
    }
    Ok(())
}

// Where the next record ends, if it is of the kind that is due and its body passes. `judge_body` is what the closure's answers on the body read as.
pub fn record_end<F: FnOnce(&[u8]) -> Result<(), Refusal>>(
    t: &[u8],
    kind: Kind,
    missing: Refusal,
    judge: F,
) -> Result<usize, Refusal>
    requires { F.IsAlwaysCallable judge }
    ensures { (judge_body : List ℕ → Read (Unit {0}))
        → Reads (FnOnceReturnsAt F.FnOnce judge (body_of t.now)) (judge_body (body_of t.now))
        → reading_of result
        ≡ table.judge_record (code_of kind) (number_of missing) judge_body t.now }
{
    let end = due(t, kind, missing)?;
    judge(body(t))?;
    Ok(end)
}

// Judges a table: its counts, or the first cause of refusal in document 01's order. It takes any bytes.
pub fn judge(t: &[u8]) -> Result<Size, Refusal>
    ensures { reading_of result ≡ sized (table.judge t.now) }
{
    let head = Head::judge(t)?;
    for body in head.rules() {
        body?;
    }
    Ok(head.size)
}
