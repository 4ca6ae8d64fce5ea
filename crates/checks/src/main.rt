// Reads cases from standard input, each a table, a tree and three counts, and writes the answer of a check, with the subtree that it names, and the
// counts after it.
// A case: its name, after a byte of length; the table and the tree, each after four bytes of length; the counts, four bytes each.
#![tactic(auto)]

use automaton::Refusal;
use cases::line;
use simulation::{Answer, Counts, Subtree};
use std::io;
use std::io::{Read, Write};

fn main(rt: HostRuntime) -> io::Result<()> {
    cases::run(&mut rt.stdin(), &mut rt.stdout(), one)
}

// What follows a case's name: false where the input has ended.
fn one<R: Read, W: Write>(input: &mut R, out: &mut W) -> io::Result<bool> {
    let mut table = [0u8; 65536];
    let Some(table) = cases::next_field(input, 4, &mut table)? else {
        return Ok(false);
    };
    let mut tree = [0u8; 65536];
    let Some(tree) = cases::next_field(input, 4, &mut tree)? else {
        return Ok(false);
    };
    let before = counts(input)?;
    report(out, before, table, tree)?;
    Ok(true)
}

fn counts<R: Read>(input: &mut R) -> io::Result<Counts> {
    Ok(Counts {
        accepted: count(input)?,
        rejected: count(input)?,
        refused: count(input)?,
    })
}

// The next count; 0 where the input has ended.
fn count<R: Read>(input: &mut R) -> io::Result<u32> {
    Ok(cases::number(input, 4)?.unwrap_or(0))
}

fn report<W: Write>(out: &mut W, counts: Counts, table: &[u8], tree: &[u8]) -> io::Result<()> {
    let checked = simulation::check(counts, table, tree);
    write_answer(out, checked.answer)?;
    let after = checked.counts;
    line(
        out,
        b"counts",
        &[after.accepted, after.rejected, after.refused],
    )
}

fn write_answer<W: Write>(out: &mut W, answer: Result<Answer, Refusal>) -> io::Result<()> {
    match answer {
        Ok(Answer::Accepted) => out.write_all(b"accepted\n"),
        Ok(Answer::Rejected(Subtree { node, size })) => line(out, b"rejected", &[node, size]),
        Err(cause) => line(out, b"refused", &[u32::from(cause)]),
    }
}
