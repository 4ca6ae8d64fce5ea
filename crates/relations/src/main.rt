// Reads cases from standard input, each a table, the room for its relation and pairs of states, and writes what the two queries find.
// A case: its name, after a byte of length; the table, after four bytes of length; the room (four bytes); the number of pairs
// (two bytes), and two bytes for each state of each pair.
#![tactic(auto)]

use automaton::Refusal;
use cases::line;
use simulation::Related;
use std::io;
use std::io::{Read, Write};

// The longest output that a relation is tried with.
const ROOM: usize = 8300;

fn main(rt: HostRuntime) -> io::Result<()> {
    cases::run(&mut rt.stdin(), &mut rt.stdout(), one)
}

// What follows a case's name: false where the input has ended.
fn one<R: Read, W: Write>(input: &mut R, out: &mut W) -> io::Result<bool> {
    let mut table = [0u8; 65536];
    let Some(table) = cases::next_field(input, 4, &mut table)? else {
        return Ok(false);
    };
    let Some(room) = cases::number(input, 4)? else {
        return Ok(false);
    };
    relation(out, table, room as usize)?;
    let Some(pairs) = cases::number(input, 2)? else {
        return Ok(false);
    };
    compare_all(input, out, table, pairs)?;
    Ok(true)
}

fn compare_all<R: Read, W: Write>(
    input: &mut R,
    out: &mut W,
    t: &[u8],
    pairs: u32,
) -> io::Result<()> {
    for _ in 0..pairs {
        let q = state(input)?;
        let r = state(input)?;
        compare(out, t, q, r)?;
    }
    Ok(())
}

// The next state; where the input has ended, a number that no state has.
fn state<R: Read>(input: &mut R) -> io::Result<usize> {
    Ok(cases::number(input, 2)?.map_or(1 << 32, |q| q as usize))
}

// The relation, in an output with some room, and a checksum of all of the output; nothing where the room is more than any case has.
fn relation<W: Write>(out: &mut W, t: &[u8], room: usize) -> io::Result<()> {
    if room > ROOM {
        return Ok(());
    }
    let mut space = cases::filled::<ROOM>();
    let space = &mut space[..room];
    let related = simulation::relate(t, space);
    write_related(out, related, cases::add_all(0, space))
}

fn write_related<W: Write>(
    out: &mut W,
    related: Result<Related, Refusal>,
    sum: u64,
) -> io::Result<()> {
    match related {
        Ok(Related { rounds, pairs }) => {
            line(out, b"relation", &[rounds as u64, pairs as u64, sum])
        }
        Err(cause) => line(out, b"refused", &[u64::from(u32::from(cause)), sum]),
    }
}

// A pair of states, and whether the second simulates the first.
fn compare<W: Write>(out: &mut W, t: &[u8], q: usize, r: usize) -> io::Result<()> {
    out.write_all(b"pair")?;
    cases::write_spaced(out, &[q, r])?;
    match simulation::compare(t, q, r) {
        Ok(None) => out.write_all(b" yes\n"),
        Ok(Some(i)) => line(out, b" rule", &[i]),
        Err(cause) => line(out, b" refused", &[u32::from(cause)]),
    }
}
