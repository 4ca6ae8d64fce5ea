// Reads cases from standard input, each a table and the room for its reduced one, and writes what reducing returns, the length and a
// checksum of the whole output; then the same of the reduced table, reduced again with room for just its own bytes; then the report on
// the table.
// A case: its name, after a byte of length; the table, after four bytes of length; the room (four bytes).
#![tactic(auto)]

use automaton::Refusal;
use cases::line;
use reduction::Reduction;
use std::io;
use std::io::{Read, Write};

// The longest output that a table is reduced into.
const ROOM: usize = 27500;

fn main(rt: HostRuntime) -> io::Result<()> {
    cases::run(&mut rt.stdin(), &mut rt.stdout(), one)
}

// What follows a case's name: false where the input has ended, or the room is more than any case has.
fn one<R: Read, W: Write>(input: &mut R, out: &mut W) -> io::Result<bool> {
    let mut table = [0u8; 65536];
    let Some(table) = cases::next_field(input, 4, &mut table)? else {
        return Ok(false);
    };
    let Some(room) = cases::number(input, 4)? else {
        return Ok(false);
    };
    with_room(out, table, room as usize)
}

// Reduces a table with some room, and the reduced table again, and reports on the table: false where the room is more than any case has.
fn with_room<W: Write>(out: &mut W, t: &[u8], room: usize) -> io::Result<bool> {
    let mut space = cases::filled::<ROOM>();
    let Some(space) = space.get_mut(..room) else {
        return Ok(false);
    };
    twice(out, t, space)?;
    write_report(out, t)?;
    Ok(true)
}

fn twice<W: Write>(out: &mut W, t: &[u8], space: &mut [u8]) -> io::Result<()> {
    match reduce(out, t, space)? {
        Some(length) if length <= space.len() => again(out, &space[..length]),
        _ => Ok(()),
    }
}

// Reduces a reduced table, with room for just its own bytes.
fn again<W: Write>(out: &mut W, t: &[u8]) -> io::Result<()> {
    let mut space = cases::filled::<ROOM>();
    if let Some(room) = space.get_mut(..t.len()) {
        reduce(out, t, room)?;
    }
    Ok(())
}

// Reduces a table and writes the answer, and a checksum of all of the output; its length, or none where it is refused.
fn reduce<W: Write>(out: &mut W, t: &[u8], space: &mut [u8]) -> io::Result<Option<usize>> {
    let length = write_reduced(out, reduction::reduce(t, space))?;
    line(out, b"output", &[cases::add_all(0, space)])?;
    Ok(length)
}

fn write_reduced<W: Write>(
    out: &mut W,
    reduced: Result<Reduction, Refusal>,
) -> io::Result<Option<usize>> {
    match reduced {
        Err(cause) => {
            line(out, b"refused", &[u32::from(cause)])?;
            Ok(None)
        }
        Ok(r) => {
            write_lines(out, r)?;
            Ok(Some(r.length))
        }
    }
}

fn write_lines<W: Write>(out: &mut W, r: Reduction) -> io::Result<()> {
    out.write_all(b"reduced\n")?;
    line(out, b"states", &[r.old.states, r.new.states])?;
    line(out, b"rules", &[r.old.rules, r.new.rules])?;
    line(out, b"rounds", &[r.rounds])?;
    line(out, b"length", &[r.length])
}

// The report on a table, after a line of its own.
fn write_report<W: Write>(out: &mut W, t: &[u8]) -> io::Result<()> {
    out.write_all(b"report\n")?;
    let mut lines = [0u8; 64];
    let end = reporting::report(t, &mut lines);
    out.write_all(&lines[..end])
}
