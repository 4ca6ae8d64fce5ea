// What the calls of `automaton` find in some bytes, a line each.
use automaton::{Opened, RULES, Refusal, Row, Table};
use cases::{add_all, line, write_spaced};
use std::io;
use std::io::Write;

// The longest table, and 16 bytes more.
const SPACE: usize = 27432;

pub fn report<W: Write>(out: &mut W, t: &[u8]) -> io::Result<()> {
    records(out, t)?;
    table(out, t)?;
    decode(out, t)
}

// Opens records one after the other: how many there are, a checksum of their kinds and bodies, and what ends them.
fn records<W: Write>(out: &mut W, t: &[u8]) -> io::Result<()> {
    let mut rest = t;
    let mut count: u64 = 0;
    let mut sum: u64 = 0;
    while let Ok(Some(Opened { kind, end })) = automaton::open(rest) {
        sum = add_all(sum, &kind.to_le_bytes());
        sum = add_all(sum, automaton::body(rest));
        rest = &rest[end..];
        count += 1;
    }
    out.write_all(b"records")?;
    write_spaced(out, &[count, sum])?;
    ending(out, rest)
}

// What stands where no record opens.
fn ending<W: Write>(out: &mut W, rest: &[u8]) -> io::Result<()> {
    match automaton::open(rest) {
        Err(cause) => line(out, b" refused", &[u32::from(cause)]),
        Ok(None) => out.write_all(b" end\n"),
        Ok(Some(_)) => out.write_all(b" record\n"),
    }
}

// Judges a table.
fn table<W: Write>(out: &mut W, t: &[u8]) -> io::Result<()> {
    match automaton::judge(t) {
        Err(cause) => line(out, b"refused", &[u32::from(cause)]),
        Ok(size) => line(out, b"table", &[size.states, size.symbols, size.rules]),
    }
}

// Decodes a table and writes it back.
fn decode<W: Write>(out: &mut W, t: &[u8]) -> io::Result<()> {
    let mut rows = [Row::EMPTY; RULES];
    match automaton::decode(t, &mut rows) {
        Err(cause) => line(out, b"refused", &[u32::from(cause)]),
        Ok(table) => decoded(out, t.len(), &table),
    }
}

// Writes what was decoded, in lines and as the bytes of a table.
fn decoded<W: Write>(out: &mut W, bytes: usize, table: &Table) -> io::Result<()> {
    line(out, b"ranks", table.ranks())?;
    print_finals(out, table)?;
    for rule in table.rules() {
        print_rule(out, rule)?;
    }
    write(out, bytes, table)
}

fn print_finals<W: Write>(out: &mut W, table: &Table) -> io::Result<()> {
    out.write_all(b"finals")?;
    for q in table.finals().states() {
        write_spaced(out, &[q])?;
    }
    out.write_all(b"\n")
}

fn print_rule<W: Write>(out: &mut W, rule: &Row) -> io::Result<()> {
    out.write_all(b"rule")?;
    write_spaced(out, &[rule.symbol(), rule.target()])?;
    line(out, b"", rule.children())
}

// Writes a table of some bytes into a buffer that is longer than it by 16 bytes, and into one that is a byte too short.
fn write<W: Write>(out: &mut W, bytes: usize, table: &Table) -> io::Result<()> {
    if bytes < 1 || bytes > SPACE - 16 {
        return Ok(());
    }
    let mut long = cases::filled::<SPACE>();
    attempt(out, table, &mut long[..bytes + 16])?;
    let mut short = cases::filled::<SPACE>();
    attempt(out, table, &mut short[..bytes - 1])
}

// Writes the table into `space`: its length or the refusal, and a checksum of all of `space` afterwards.
fn attempt<W: Write>(out: &mut W, table: &Table, space: &mut [u8]) -> io::Result<()> {
    let written = automaton::write(&table.view(), space);
    write_written(out, written, add_all(0, space))
}

fn write_written<W: Write>(
    out: &mut W,
    written: Result<usize, Refusal>,
    sum: u64,
) -> io::Result<()> {
    match written {
        Ok(length) => line(out, b"written", &[length as u64, sum]),
        Err(cause) => line(out, b"short", &[u64::from(u32::from(cause)), sum]),
    }
}
