// Runs the edges of the number form and of the row form. Its input is lines of 24 bytes: a letter for the width and the range (n: 11
// columns, 32 bits; w: 20 columns, 64 bits), a bar, then the columns. Each is printed with what it reads as, and that written again at both
// widths. Then rows are read at several places.
#![tactic(auto)]

ghost use Rattle.std.specs.Prelude.{◌<◌, ◌^◌, ◌+◌, ◌≤◌, length};

use input::read_full;
use row::{Place, Read, Row};
use std::io;

const GREATEST_32: u64 = 2147483647;

const GREATEST_64: u64 = 9223372036854775807;

const LINE: usize = 24;

// The number in 11 and in 20 columns.
fn written(rt: &impl Print, word: u64) -> io::Result<()> {
    let mut narrow = [63u8; 11];
    number::write_number(&mut narrow, 11, word);
    rt.write_all(&narrow)?;
    rt.print("|")?;
    let mut wide = [63u8; 20];
    number::write_number(&mut wide, 20, word);
    rt.write_all(&wide)?;
    rt.println("|")
}

// The columns, what they read as, and that written again.
fn column(rt: &impl Print, greatest: u64, columns: &[u8]) -> io::Result<()>
    requires { greatest < 2 ^ 63 }
{
    rt.print("|")?;
    rt.write_all(columns)?;
    rt.print("| ")?;
    match number::read_number(greatest, columns) {
        Some(word) => {
            print!(rt; "{word} |")?;
            written(rt, word)
        }
        None => rt.println("malformed"),
    }
}

// One line of the input.
fn case(rt: &impl Print, line: &[u8]) -> io::Result<()>
    requires { 24 ≤ length line.now }
{
    if line[0] == b'n' {
        column(rt, GREATEST_32, &line[2..13])?;
    }
    if line[0] == b'w' {
        column(rt, GREATEST_64, &line[2..22])?;
    }
    Ok(())
}

fn cases(rt: &impl Print, lines: &[u8]) -> io::Result<()> {
    for line in lines.chunks_exact(LINE) {
        case(rt, line)?;
    }
    Ok(())
}

// What is read at a place, and where reading goes on.
fn line(rt: &impl Print, bytes: &[u8], at: usize) -> io::Result<()> {
    let place = Place { at };
    match place.read(bytes) {
        Read::Next(row, next) => {
            let mut out = [63u8; Row::LENGTH];
            row.write(&mut out);
            rt.write_all(&out)?;
            println!(rt; "{}", next.at)
        }
        Read::Malformed => rt.println("malformed"),
        Read::End => rt.println("end"),
    }
}

// A row, a row of extremes, and a torn one.
fn rows(rt: &impl Print) -> io::Result<()> {
    let bytes =
        b"  10          2          1          0\n-999-2147483648 2147483647         -1\n  60          2          1          5";
    for at in [0, 1, 38, 76, 113, 1000] {
        line(rt, bytes, at)?;
    }
    Ok(())
}

fn main(rt: HostRuntime) -> io::Result<()> {
    let mut input = [0u8; 4096];
    let got = read_full(&mut rt.reader(), &mut input)?;
    cases(&rt, &input[..got])?;
    rows(&rt)
}
