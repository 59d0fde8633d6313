// 01, Sequents: "A program reads a table from standard input and prints all sequents, or one row 89 (refusal, row, 0)."
#![tactic(auto)]

mod output;

ghost use Rattle.std.specs.Prelude.{◌≡◌, ◌+◌, ◌≤◌, ◌<◌, length, Ok, Err, IfOk};
ghost use Rattle.table.specs.Lookups.{most_rows, most_words};
ghost use Rattle.table.specs.Rows.{rows_of};
ghost use Rattle.rules.specs.Decoded.{words_of};
ghost use Rattle.rules.specs.Verdict.{judge as judge_of, verdict as verdict_of};
ghost use Rattle.reply.specs.Replies.{output};
ghost use Rattle.services.specs.Found.{ListedSlot};
ghost use Rattle.obligations.specs.Output.{StandsAt, slot_bytes};
ghost use Rattle.obligations.specs.Held.{Waits, written_to, enough, room};

use input::read_full;
use nodes::Index;
use output::Printer;
use reply::tags;
use row::Row;
use rules::Refusal;
use scan::Span;
use segments::Segment;
use services::write_slot;
use std::io;
use std::io::Stdout;
use std::process::ExitCode;
use table::Table;
use verdict::{judge_with, load};
use walk::{Slot, seek};

// "or one row 89 (refusal, row, 0)"
fn print_refusal(stdout: Stdout, bytes: &[u8], refusal: Refusal) -> io::Result<Printer>
    requires { verdict_of bytes.now ≡ Err refusal }
    ensures { IfOk result (λ printer. printer.at ≡ length (output bytes.now)) }
{
    let mut out = [0u8; Row::LENGTH];
    let row = Row {
        tag: tags::REFUSAL,
        a: refusal.number,
        b: refusal.row,
        c: 0,
    };
    row.write(&mut out);
    Printer::start(stdout).print(bytes, &out)
}

// What is written and not yet printed: the first bytes of a buffer, which the output goes on with where the printer stands.
#[derive(Drop)]
struct Batch {
    printer: Printer,
    held: usize,
}

impl Batch {
    // So many bytes are enough to be printed at once.
    const ENOUGH: usize = 65536;

    fn start(stdout: Stdout) -> Self
        ensures { (result.printer.at ≡ 0) × (result.held ≡ 0) }
    {
        Self {
            printer: Printer::start(stdout),
            held: 0,
        }
    }

    // Prints what is held.
    fn flush(self, bytes: &[u8], out: &[u8]) -> io::Result<Printer>
        requires { Waits bytes.now self out.now }
        ensures { IfOk result (λ printer. printer.at ≡ written_to self) }
    {
        let held = self.held;
        self.printer.print(bytes, &out[..held])
    }

    // Prints what is held once it is enough.
    fn pass_on(self, bytes: &[u8], out: &[u8]) -> io::Result<Self>
        requires { Waits bytes.now self out.now }
        ensures { IfOk result (λ batch. Waits bytes.now batch out.now × (batch.held < enough) × (written_to batch ≡ written_to self)) }
    {
        if self.held < Batch::ENOUGH {
            return Ok(self);
        }
        Ok(Self {
            printer: self.flush(bytes, out)?,
            held: 0,
        })
    }
}

// Writes the sequent in a slot, which is listed, behind what is held, where it is what the output goes on with, and prints once enough is held.
fn print_slot(
    bytes: &[u8],
    index: &Index,
    slot: Slot,
    batch: Batch,
    out: &mut [u8],
) -> io::Result<Batch>
    requires table_value { slot.row < (rows_of index.now.table.words.now).size }
    requires waits { Waits bytes.now batch out.old × (batch.held < enough) × (room (rows_of index.now.table.words.now).size ≤ length out.old) }
    requires stands_at { StandsAt bytes.now (written_to batch) (slot_bytes (rows_of index.now.table.words.now) slot) × ListedSlot (rows_of index.now.table.words.now) slot }
    ensures { IfOk result (λ after. Waits bytes.now after out.new × (after.held < enough) × (written_to after ≡ written_to batch + length (slot_bytes (rows_of index.now.table.words.now) slot))) }
{
    let printer = batch.printer;
    let start = batch.held;
    let held = start + write_slot(index, slot, &mut out[start..]);
    Batch { printer, held }.pass_on(bytes, out)
}

// "prints all sequents": those from 1 to the count, by one walk.
fn print_sequents(
    stdout: Stdout,
    bytes: &[u8],
    index: &Index,
    count: u64,
    out: &mut [u8],
) -> io::Result<Printer>
    requires { (index.now.table.words.now ≡ words_of bytes.now) × (verdict_of bytes.now ≡ Ok count) × (room (rows_of index.now.table.words.now).size ≤ length out.old) }
    ensures { IfOk result (λ printer. printer.at ≡ length (output bytes.now)) }
{
    let mut batch = Batch::start(stdout);
    let mut slot = seek(index, Slot::start(0));
    for done in 0..count {
        batch = print_slot(bytes, index, slot, batch, out)?;
        slot = seek(index, slot.after());
    }
    batch.flush(bytes, out)
}

// Prints the sequents of a table with these words, or its refusal by checks 3 to 12, by the counts of the rows and what is noted of them.
fn print_judged(stdout: Stdout, bytes: &[u8], index: &Index, out: &mut [u8]) -> io::Result<Printer>
    requires table_value { length index.now.table.words.now ≤ most_words }
    requires words_value { (index.now.table.words.now ≡ words_of bytes.now) × (verdict_of bytes.now ≡ judge_of (rows_of index.now.table.words.now)) × (room most_rows ≤ length out.old) }
    ensures { IfOk result (λ printer. printer.at ≡ length (output bytes.now)) }
{
    match judge_with(index) {
        Err(refusal) => print_refusal(stdout, bytes, refusal),
        Ok(count) => print_sequents(stdout, bytes, index, count, out),
    }
}

// The same, of the rows alone: they are counted, and what is asked of them again and again is noted, once.
fn print_rows(stdout: Stdout, bytes: &[u8], words: &[u64], out: &mut [u8]) -> io::Result<Printer>
    requires words_value { (words.now ≡ words_of bytes.now) × (verdict_of bytes.now ≡ judge_of (rows_of words.now)) }
    requires words_len_bound { (length words.now ≤ most_words) × (room most_rows ≤ length out.old) }
    ensures { IfOk result (λ printer. printer.at ≡ length (output bytes.now)) }
{
    let mut spans = [0usize; Span::WORDS];
    let index = Index::of(words, &mut spans);
    print_judged(stdout, bytes, &index, out)
}

// Prints the whole output for a table.
fn print_table(stdout: Stdout, bytes: &[u8], out: &mut [u8]) -> io::Result<Printer>
    requires { room most_rows ≤ length out.old }
    ensures { IfOk result (λ printer. printer.at ≡ length (output bytes.now)) }
{
    let mut words = [0u64; Table::WORDS];
    match load(bytes, &mut words) {
        Err(refusal) => print_refusal(stdout, bytes, refusal),
        Ok(n) => print_rows(stdout, bytes, &words[..n], out),
    }
}

// Room for what may be held and any sequent behind it: its rows 80, 84 and 82, and a row 81 for each hypothesis, of which a segment has at most one for each row.
const ROOM: usize = Batch::ENOUGH + Row::LENGTH * (3 + Segment::COUNT as usize * Table::ROWS);

// Says what failed, and why.
fn failed(rt: &impl Eprint, what: &str, error: io::Error) -> ExitCode {
    let _ = eprintln!(rt; "{what}: {error}");
    ExitCode::FAILURE
}

// One byte more than a table may have is enough to tell that it is too long.
fn main(rt: HostRuntime) -> ExitCode {
    let mut input = [0u8; Table::BYTES + 1];
    let got = match read_full(&mut rt.reader(), &mut input) {
        Ok(got) => got,
        Err(error) => return failed(&rt, "standard input", error),
    };
    let mut out = [0u8; ROOM];
    match print_table(rt.stdout(), &input[..got], &mut out) {
        Ok(_) => ExitCode::SUCCESS,
        Err(error) => failed(&rt, "standard output", error),
    }
}
