// Runs check at the limits. Its input is rows that lay out tables: 1 n says that the next row stands n times, 2 a b c what is added to its
// numbers each time, 3 n ends the table number n, which is then checked. All others are rows of the table.
#![tactic(auto)]

ghost use Rattle.std.specs.Prelude.{◌≡◌, ◌≤◌, ◌<◌, ◌^◌, ◌*◌, ◌+◌, length};
ghost use Rattle.row.specs.Row.{row_length, width};

use input::read_full;
use row::{Place, Read, Row};
use rules::Refusal;
use std::io;
use table::Table;

// What is laid out: how many bytes, how often the next row stands, and what is added each time.
#[derive(Clone, Copy)]
struct Layout {
    at: usize,
    times: u64,
    a: u64,
    b: u64,
    c: u64,
}

// One table's number, its bytes and its verdict.
fn report(rt: &impl Print, n: u64, table: &[u8]) -> io::Result<()> {
    let size = table.len();
    match verdict::check(table) {
        Ok(count) => println!(rt; "{n}: {size} bytes accepted {count}"),
        Err(Refusal { number, row }) => {
            println!(rt; "{n}: {size} bytes refused {number} row {row}")
        }
    }
}

// A number and its step, where both are small.
fn stepped(x: u64, step: u64) -> u64 {
    if Row::GREATEST < x {
        return x;
    }
    if Row::GREATEST < step {
        return x;
    }
    x + step
}

fn stepped_row(row: Row, layout: Layout) -> Row {
    Row {
        tag: row.tag,
        a: stepped(row.a, layout.a),
        b: stepped(row.b, layout.b),
        c: stepped(row.c, layout.c),
    }
}

impl Layout {
    fn start(at: usize) -> Self
        ensures { result.at ≡ at }
    {
        Self {
            at,
            times: 1,
            a: 0,
            b: 0,
            c: 0,
        }
    }
}

// Writes the row as often as it stands, as far as there is room, and answers where the table then ends.
fn repeat(row: Row, layout: Layout, table: &mut [u8]) -> usize
    requires { layout.at ≤ length table.old }
    ensures { result ≤ length table.old }
{
    let mut next = row;
    let mut at = layout.at;
    for _ in 0..layout.times {
        if table.len() - at < Row::LENGTH {
            return at;
        }
        next.write(&mut table[at..]);
        next = stepped_row(next, layout);
        at += Row::LENGTH;
    }
    at
}

// What one row of the input does to what is laid out. After a row 3 the next table begins.
fn lay_out(row: Row, layout: Layout, table: &mut [u8]) -> Layout
    requires { layout.at ≤ length table.old }
    ensures { result.at ≤ length table.old }
{
    let tag = row.tag;
    match tag {
        1 => Layout {
            at: layout.at,
            times: row.a,
            a: layout.a,
            b: layout.b,
            c: layout.c,
        },
        2 => Layout {
            at: layout.at,
            times: layout.times,
            a: row.a,
            b: row.b,
            c: row.c,
        },
        3 => Layout::start(0),
        _ => Layout::start(repeat(row, layout, table)),
    }
}

fn read_row(lines: &[u8], i: usize) -> Row
    requires { row_length width * i < 2 ^ 64 }
{
    let place = Place {
        at: Row::LENGTH * i,
    };
    match place.read(lines) {
        Read::Next(row, next) => row,
        _ => Row {
            tag: 0,
            a: 0,
            b: 0,
            c: 0,
        },
    }
}

fn tables(rt: &impl Print, lines: &[u8], table: &mut [u8]) -> io::Result<()> {
    let rows = lines.len() / Row::LENGTH;
    let mut layout = Layout::start(0);
    for i in 0..rows {
        let row = read_row(lines, i);
        if row.tag == 3 {
            report(rt, row.a, &table[..layout.at])?;
        }
        layout = lay_out(row, layout, table);
    }
    Ok(())
}

fn main(rt: HostRuntime) -> io::Result<()> {
    let mut input = [0u8; Table::BYTES];
    let got = read_full(&mut rt.reader(), &mut input)?;
    let mut table = [0u8; Row::LENGTH * (Table::ROWS + 1)];
    tables(&rt, &input[..got], &mut table)
}
