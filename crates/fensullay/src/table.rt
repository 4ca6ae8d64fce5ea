// Judging a table, reducing it, and the report on it.
ghost use Rattle.std.specs.Prelude.{◌≡◌};
ghost use Rattle.fensullay.specs.Exports as spec;

use crate::numbers::{OK, SHORT_ARRAY, answer, put_all};
use automaton::{Refusal, Size, judge};
use reduction::{Reduction, reduce};
use reporting::report;

// The numbers of a judged table: states, symbols, rules.
fn size_numbers(size: Size) -> [usize; 3]
    ensures { result ≡ spec.size_numbers size }
{
    [size.states, size.symbols, size.rules]
}

// Judges a table: 0, and its states, symbols and rules in `numbers`; or the refusal, 1 to 7; or 100 where `numbers` has fewer than 3.
#[unsafe(no_mangle)]
pub extern "C" fn fensullay_judge(table: &[u8], numbers: &mut [usize]) -> u32
    ensures value { result ≡ (spec.judging table.now numbers.old).code }
    ensures numbers_after { numbers.new ≡ (spec.judging table.now numbers.old).numbers }
{
    if numbers.len() < 3 {
        return SHORT_ARRAY;
    }
    answer(numbers, judge(table).map(size_numbers))
}

// The numbers of a reduction: the length, the old and new states, the old and new rules, the rounds.
fn reduction_numbers(r: Reduction) -> [usize; 6]
    ensures { result ≡ spec.reduction_numbers r }
{
    [
        r.length,
        r.old.states,
        r.new.states,
        r.old.rules,
        r.new.rules,
        r.rounds,
    ]
}

// Reduces a table into `out`: 0, and the length, the old and new states, the old and new rules and the rounds in `numbers`; or the
// refusal, 1 to 7, or 13 where `out` is too short; or 100 where `numbers` has fewer than 6.
#[unsafe(no_mangle)]
pub extern "C" fn fensullay_reduce(table: &[u8], out: &mut [u8], numbers: &mut [usize]) -> u32
    ensures value { result ≡ (spec.reducing table.now out.old numbers.old).code }
    ensures numbers_after { numbers.new ≡ (spec.reducing table.now out.old numbers.old).numbers }
    ensures out_after { out.new ≡ (spec.reducing table.now out.old numbers.old).out }
{
    if numbers.len() < 6 {
        return SHORT_ARRAY;
    }
    answer(numbers, reduce(table, out).map(reduction_numbers))
}

// Writes the lines of the report on the first 27,417 bytes of `input` into `out`: 0, and their length in `numbers`; or 13 where `out` is
// shorter than they are; or 100 where `numbers` is empty.
#[unsafe(no_mangle)]
pub extern "C" fn fensullay_report(input: &[u8], out: &mut [u8], numbers: &mut [usize]) -> u32
    ensures value { result ≡ (spec.reporting input.now out.old numbers.old).code }
    ensures numbers_after { numbers.new ≡ (spec.reporting input.now out.old numbers.old).numbers }
    ensures out_after { out.new ≡ (spec.reporting input.now out.old numbers.old).out }
{
    if numbers.is_empty() {
        return SHORT_ARRAY;
    }
    let mut lines = [0; 64];
    let end = report(input, &mut lines);
    if out.len() < end {
        return u32::from(Refusal::ShortOutput);
    }
    put_all(out, &lines[..end]);
    put_all(numbers, &[end]);
    OK
}
