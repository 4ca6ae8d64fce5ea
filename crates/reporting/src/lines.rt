// The report on a table: what reducing it does, or why it is refused, in lines of text.
#![tactic(auto, using(crate::proofs::Text::by_line))]

ghost use Rattle.std.specs.Prelude.{◌≡◌, ◌∷◌, ◌++◌, ◌+◌, ◌≤◌, length, take, drop};
ghost use Rattle.records.specs.Pen.{put_in, HasRoom};
ghost use Rattle.automaton.specs.Table.{judge};
ghost use Rattle.reporting.specs.Report as spec;
ghost use Rattle.reporting.specs.Inner.{reduced_lines};

use automaton::{RULES, Row, Size, decode};
use records::Pen;
use reduction::reduce_table;

// The digits of v. `write!` would be no plainer: it may answer an error, and the report cannot fail.
fn put_digits(pen: &mut Pen, v: usize)
    requires { HasRoom (length (spec.decimal v)) pen.old }
    ensures { pen.new ≡ put_in (spec.decimal v) pen.old }
{
    if v >= 10 {
        put_digits(pen, v / 10);
    }
    pen.put(&[b'0' + (v % 10) as u8]);
}

// A space and the digits of v.
fn put_number(pen: &mut Pen, v: usize)
    requires { HasRoom (length (32 ∷ spec.decimal v)) pen.old }
    ensures { pen.new ≡ put_in (32 ∷ spec.decimal v) pen.old }
{
    pen.put(b" ");
    put_digits(pen, v);
}

// A line of a word and some numbers.
fn put_line(pen: &mut Pen, word: &[u8], numbers: &[usize])
    requires { HasRoom (length (spec.line word.now numbers.now)) pen.old }
    ensures { pen.new ≡ put_in (spec.line word.now numbers.now) pen.old }
{
    pen.put(word);
    for v in numbers {
        put_number(pen, *v);
    }
    pen.put(b"\n");
}

// The four lines on a reduced table.
fn put_reduced(pen: &mut Pen, old: Size, new: Size, rounds: usize)
    requires { HasRoom (length (reduced_lines old new rounds)) pen.old }
    ensures { pen.new ≡ put_in (reduced_lines old new rounds) pen.old }
{
    put_line(pen, b"reduced", &[]);
    put_line(pen, b"states", &[old.states, new.states]);
    put_line(pen, b"rules", &[old.rules, new.rules]);
    put_line(pen, b"rounds", &[rounds]);
}

// Writes the report on the first 27,417 bytes of `input` to the start of `out`; returns its length.
pub fn report(input: &[u8], out: &mut [u8; 64]) -> usize
    ensures value { result ≡ length (spec.report input.now) }
    ensures out_after { out.new ≡ spec.report input.now ++ drop (length (spec.report input.now)) out.old }
{
    let mut pen = Pen::new(out);
    put_report(&mut pen, first(input));
    pen.place()
}

// The first 27,417 bytes, or all where there are fewer.
fn first(input: &[u8]) -> &[u8]
    ensures { result.now ≡ take 27417 input.now }
{
    &input[..input.len().min(27417)]
}

// The report on a table.
fn put_report(pen: &mut Pen, table: &[u8])
    requires { HasRoom 64 pen.old }
    ensures { pen.new ≡ put_in (spec.report_of (judge table.now)) pen.old }
{
    let mut rows = [Row::EMPTY; RULES];
    match decode(table, &mut rows) {
        Err(cause) => put_line(pen, b"refused", &[u32::from(cause) as usize]),
        Ok(decoded) => {
            let old = decoded.size();
            let short = reduce_table(decoded);
            put_reduced(pen, old, short.table.size(), short.rounds);
        }
    }
}
