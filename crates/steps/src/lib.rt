// 02, request 5: replay of a recorded run: "The reply is the number of steps after the initialisation, given if and only if the log is a run by document 01's
// definition and no term met leaves signed 64 bits."
#![tactic(auto)]

ghost use Rattle.std.specs.Prelude.{◌≡◌, ◌+◌, ◌^◌, ◌≤◌, ◌<◌, length};
ghost use Rattle.row.specs.Row.{width, row_length};
ghost use Rattle.table.specs.Rows.{rows_of};
ghost use Rattle.table.specs.Lookups.{most_words};
ghost use Rattle.rules.specs.Verdict.{judge as judge_of};
ghost use Rattle.recording.specs.Lines.{lines};
ghost use Rattle.recording.specs.Replay.{replay_log, replay_by, replay as replay_of};
ghost use Rattle.values.specs.Values.{values_of};
ghost use Rattle.steps.specs.Steps.{ended_after, step_progress, step_values, TakesStep, ReplaysStep, BeginsWithin};
ghost use Rattle.steps.specs.Parts.{later_row, replay_rest, ReplaysPart, Stops};

use judge::step_fault;
use nodes::Index;
use reader::next_row;
use row::{Place, Read, Row};
use rules::Refusal;
use scan::{Scanned, Span};
use table::Table;
use values::{is_step_row, move_values, read_values, row_number};
use verdict::{judge_with, load};

// What a step that isn't refused comes to: where the next one begins, or the end of the run before it with the number of its steps.
#[derive(Clone, Copy)]
pub enum Progress {
    Going(Place),
    Ended(u64),
}

// The end of the run after n steps, the initialisation among them.
fn ended(n: u64) -> Result<Progress, Refusal>
    ensures { result ≡ ended_after n }
{
    if n == 0 {
        return Err(Refusal {
            number: Refusal::LOG,
            row: 0,
        });
    }
    Ok(Progress::Ended(n - 1))
}

// Judges a step of the event e whose row 90 has this number, and where it is allowed goes on at the place after its rows, with the values that it left.
fn judge_step(
    scanned: &Scanned,
    e: u64,
    row: u64,
    next: Place,
    present: &mut [i64],
    after: &mut [i64],
) -> Result<Progress, Refusal>
    ensures value { result ≡ step_progress (rows_of scanned.now.table.words.now) e row next (values_of present.old after.old) }
    ensures after_after { values_of present.new after.new ≡ step_values (rows_of scanned.now.table.words.now) e (values_of present.old after.old) }
{
    if let Err(fault) = step_fault(scanned, present, after, e) {
        return Err(Refusal {
            number: fault.number(),
            row,
        });
    }
    move_values(&scanned.table, present, after);
    Ok(Progress::Going(next))
}

// Takes the step of the event e, whose row 90 is the row before a place.
fn take_step(
    scanned: &Scanned,
    run: &[u8],
    e: u64,
    row: u64,
    place: Place,
    present: &mut [i64],
    after: &mut [i64],
) -> Result<Progress, Refusal>
    requires { place.at ≤ length run.now }
    ensures takes_step { TakesStep (rows_of scanned.now.table.words.now) e row run.now place.at (values_of present.old after.old) result (values_of present.new after.new) }
    ensures begins_within { BeginsWithin result place.at (length run.now) }
{
    match read_values(scanned, false, run, e, place, present, after) {
        Err(bad) => Err(Refusal {
            number: Refusal::LOG,
            row: bad.row,
        }),
        Ok(next) => judge_step(scanned, e, row, next, present, after),
    }
}

// Replays the step at a place, before which n steps were allowed.
fn replay_step(
    scanned: &Scanned,
    run: &[u8],
    n: u64,
    place: Place,
    present: &mut [i64],
    after: &mut [i64],
) -> Result<Progress, Refusal>
    ensures replays_step { ReplaysStep (rows_of scanned.now.table.words.now) n run.now place.at (values_of present.old after.old) result (values_of present.new after.new) }
    ensures begins_within { BeginsWithin result (place.at + row_length width) (length run.now) }
{
    match next_row(place, run) {
        Read::End => ended(n),
        Read::Malformed => Err(Refusal {
            number: Refusal::LOG,
            row: row_number(place),
        }),
        Read::Next(row, next) => {
            if is_step_row(&scanned.table, n == 0, row) {
                let e = row.a;
                let at = row_number(place);
                return take_step(scanned, run, e, at, next, present, after);
            }
            Err(Refusal {
                number: Refusal::LOG,
                row: row_number(place),
            })
        }
    }
}

// What a part of a run that isn't refused comes to: so many steps taken and the place where the next one begins, of which more is needed; or the end of the run
// with the number of its steps.
#[derive(Clone, Copy)]
pub enum Part {
    More(u64, Place),
    Ended(u64),
}

// A row's number in a run, by its number in a part of it, before which so many rows were; 0 stands for the end of the run.
fn later_row(before: u64, row: u64) -> u64
    requires { before + row < 2 ^ 64 }
    ensures { result ≡ later_row before row }
{
    if row == 0 {
        return 0;
    }
    before + row
}

// Replays the steps of a part of a run, before which n steps were allowed and so many rows read: all of them where it is the last part, else those whose rows are at hand in any case.
pub fn replay_part(
    scanned: &Scanned,
    part: &[u8],
    last: bool,
    n: u64,
    before: u64,
    present: &mut [i64],
    after: &mut [i64],
) -> Result<Part, Refusal>
    requires { (n + length part.now < 2 ^ 64) × (before + 1 + length part.now < 2 ^ 64) }
    ensures replays_part { ReplaysPart (rows_of scanned.now.table.words.now) n before part.now last (values_of present.old after.old) result (values_of present.new after.new) }
    ensures stops { Stops result n part.now last }
{
    let mut place = Place::start();
    let mut n = n;
    // not counted: a step has as many rows as its event asks for
    while last
        | (scanned.table.counts.identifiers < ((part.len() - place.at) / Row::LENGTH) as u64)
    {
        match replay_step(scanned, part, n, place, present, after) {
            Ok(Progress::Going(next)) => {
                place = next;
            }
            Ok(Progress::Ended(steps)) => return Ok(Part::Ended(steps)),
            Err(refusal) => {
                return Err(Refusal {
                    number: refusal.number,
                    row: later_row(before, refusal.row),
                });
            }
        }
        n += 1;
    }
    Ok(Part::More(n, place))
}

// Replays all steps of a run, with no values known before.
fn replay_steps(
    scanned: &Scanned,
    run: &[u8],
    present: &mut [i64],
    after: &mut [i64],
) -> Result<u64, Refusal>
    ensures { result ≡ replay_rest (rows_of scanned.now.table.words.now) 0 1 (lines run.now) (values_of present.old after.old) }
{
    match replay_part(scanned, run, true, 0, 0, present, after)? {
        // not of the last part
        Part::More(n, place) => Err(Refusal {
            number: Refusal::LOG,
            row: 0,
        }),
        Part::Ended(steps) => Ok(steps),
    }
}

// Replays a run of the table of these rows, which is accepted.
fn replay_log(scanned: &Scanned, run: &[u8]) -> Result<u64, Refusal>
    ensures { result ≡ replay_log (rows_of scanned.now.table.words.now) run.now }
{
    let mut present = [0i64; Table::IDENTIFIERS as usize + 1];
    let mut after = [0i64; Table::IDENTIFIERS as usize + 1];
    replay_steps(scanned, run, &mut present, &mut after)
}

// The same of a table that may be refused: "After the table's checks".
fn replay_judged(index: &Index, run: &[u8]) -> Result<u64, Refusal>
    requires { length index.now.table.words.now ≤ most_words }
    ensures { result ≡ replay_by (judge_of (rows_of index.now.table.words.now)) (replay_log (rows_of index.now.table.words.now) run.now) }
{
    judge_with(index)?;
    let scanned = Scanned {
        table: index.table,
        spans: index.spans,
    };
    replay_log(&scanned, run)
}

// The same of the rows alone.
fn replay_rows(words: &[u64], run: &[u8]) -> Result<u64, Refusal>
    requires { length words.now ≤ most_words }
    ensures { result ≡ replay_by (judge_of (rows_of words.now)) (replay_log (rows_of words.now) run.now) }
{
    let mut spans = [0usize; Span::WORDS];
    let index = Index::of(words, &mut spans);
    replay_judged(&index, run)
}

// Replays a recorded run of a table: how many steps follow the initialisation, or a refusal.
pub fn replay(table: &[u8], run: &[u8]) -> Result<u64, Refusal>
    ensures { result ≡ replay_of table.now run.now }
{
    let mut words = [0u64; Table::WORDS];
    let n = load(table, &mut words)?;
    replay_rows(&words[..n], run)
}
