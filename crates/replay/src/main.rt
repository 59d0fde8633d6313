// 02, request 5: `replay TABLE LOG` replays the log of a table's run, each in a file, and prints the reply as one row: 92 (steps, 0, 0), or 89 (refusal, row, 0).
// The log is read part by part, so memory doesn't grow with it.
#![tactic(auto)]

mod failure;

ghost use Rattle.std.specs.Prelude.{◌≡◌, ◌++◌, ◌-◌, ◌≤◌, length, take, drop, IfOk};
ghost use Rattle.table.specs.Lookups.{most_words};
ghost use Rattle.replay.specs.Reply.{reply_row};

use failure::Failure;
use input::read_full;
use nodes::Index;
use reply::tags;
use row::Row;
use rules::Refusal;
use scan::{Scanned, Span};
use std::fs::File;
use std::io::Read;
use std::process::ExitCode;
use std::rt::{Env, Files};
use std::{env, io};
use steps::{Part, replay_part};
use table::Table;
use verdict::{judge_with, load};

// 92 (steps, 0, 0)
const REPLAYED: u64 = 92;

// The row that tells a reply.
fn reply_row(reply: Result<u64, Refusal>) -> Row
    ensures { result ≡ reply_row reply }
{
    match reply {
        Ok(steps) => Row {
            tag: REPLAYED,
            a: steps,
            b: 0,
            c: 0,
        },
        Err(refusal) => Row {
            tag: tags::REFUSAL,
            a: refusal.number,
            b: refusal.row,
            c: 0,
        },
    }
}

// Prints a reply.
fn print(rt: &impl Print, reply: Result<u64, Refusal>) -> Result<(), Failure> {
    let row = reply_row(reply);
    if (Row::GREATEST < row.a) | (Row::GREATEST < row.b) {
        return Err(Failure::TooLong);
    }
    let mut out = [0u8; Row::LENGTH];
    row.write(&mut out);
    rt.write_all(&out).map_err(Failure::Output)
}

// So many bytes of a log are read at once, and at most so many times.
const WINDOW: usize = 65536;

const PARTS: u64 = 2147483648;

// Moves the bytes behind a place, up to those that are held, to the front, and answers how many they are.
fn keep_rest(window: &mut [u8], held: usize, at: usize) -> usize
    requires { (at ≤ held) × (held ≤ length window.old) × (length window.old ≤ 65536) }
    ensures value { result ≡ held - at }
    ensures window_after { window.new ≡ take (held - at) (drop at window.old) ++ drop (held - at) window.old }
{
    window.copy_within(at..held, 0);
    held - at
}

// Reads on behind the bytes that are held, until the window is full or the file ends, and answers how many are held then.
fn read_on<R: Read>(file: &mut R, window: &mut [u8], held: usize) -> io::Result<usize>
    requires { held ≤ length window.old }
    ensures { IfOk result (λ n. n ≤ length window.old) }
{
    Ok(held + read_full(file, &mut window[held..])?)
}

// Replays the log that a file holds, with no values known before.
fn replay_parts<R: Read>(
    rt: &impl Print,
    scanned: &Scanned,
    log: &mut R,
    window: &mut [u8],
    present: &mut [i64],
    after: &mut [i64],
) -> Result<(), Failure>
    requires { length window.old ≡ 65536 }
{
    let mut held = 0;
    let mut n = 0;
    let mut before = 0;
    for parts in 0..PARTS {
        held = read_on(log, window, held).map_err(Failure::Log)?;
        let last = held < WINDOW;
        let part = &window[..held];
        match replay_part(scanned, part, last, n, before, present, after) {
            Ok(Part::More(steps, next)) => {
                n = steps;
                before += (next.at / Row::LENGTH) as u64;
                held = keep_rest(window, held, next.at);
            }
            Ok(Part::Ended(steps)) => return print(rt, Ok(steps)),
            Err(refusal) => return print(rt, Err(refusal)),
        }
    }
    Err(Failure::TooLong)
}

// Replays the log that a file holds, of the table of these rows, which is accepted.
fn replay_log<R: Read>(rt: &impl Print, scanned: &Scanned, log: &mut R) -> Result<(), Failure> {
    let mut window = [0u8; WINDOW];
    let mut present = [0i64; Table::IDENTIFIERS as usize + 1];
    let mut after = [0i64; Table::IDENTIFIERS as usize + 1];
    replay_parts(rt, scanned, log, &mut window, &mut present, &mut after)
}

// The same of a table that may be refused.
fn replay_judged<R: Read>(rt: &impl Print, index: &Index, log: &mut R) -> Result<(), Failure>
    requires { length index.now.table.words.now ≤ most_words }
{
    match judge_with(index) {
        Err(refusal) => print(rt, Err(refusal)),
        Ok(_) => {
            let scanned = Scanned {
                table: index.table,
                spans: index.spans,
            };
            replay_log(rt, &scanned, log)
        }
    }
}

// The same of the rows alone.
fn replay_rows<R: Read>(rt: &impl Print, words: &[u64], log: &mut R) -> Result<(), Failure>
    requires { length words.now ≤ most_words }
{
    let mut spans = [0usize; Span::WORDS];
    let index = Index::of(words, &mut spans);
    replay_judged(rt, &index, log)
}

// The same of a table's bytes.
fn replay_table<R: Read>(rt: &impl Print, bytes: &[u8], log: &mut R) -> Result<(), Failure> {
    let mut words = [0u64; Table::WORDS];
    match load(bytes, &mut words) {
        Err(refusal) => print(rt, Err(refusal)),
        Ok(n) => replay_rows(rt, &words[..n], log),
    }
}

// Opens the file that an argument names.
fn open<R: Files>(rt: &R, path: String) -> Result<R::File, Failure> {
    File::open(rt, path.as_str()).map_err(|error| Failure::Open(path, error))
}

// Replays the log, of the table, that the arguments name.
fn run<R: Env + Files + Print + AllocGlobal>(rt: &R) -> Result<(), Failure> {
    let mut arguments = env::args(rt).map_err(Failure::Arguments)?.skip(1);
    let (Some(table), Some(log), None) = (arguments.next(), arguments.next(), arguments.next())
    else {
        return Err(Failure::Usage);
    };
    let mut table = open(rt, table)?;
    let mut log = open(rt, log)?;
    // one byte more than a table may have is enough to tell that it is too long
    let mut input = [0u8; Table::BYTES + 1];
    let got = read_full(&mut table, &mut input).map_err(Failure::Table)?;
    replay_table(rt, &input[..got], &mut log)
}

fn main(rt: HostRuntime) -> ExitCode {
    match run(&rt) {
        Ok(()) => ExitCode::SUCCESS,
        Err(failure) => {
            let _ = eprintln!(rt; "{failure}");
            failure.status()
        }
    }
}
