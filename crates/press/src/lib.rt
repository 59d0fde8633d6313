// 02, request 6: "Press an event, or only look", on the values and the types of a state: two slices of numbers.
#![tactic(auto)]

ghost use Rattle.std.specs.Prelude.{◌≡◌, ◌≤◌, ltb, eqb, length, Some, None};
ghost use Rattle.lists.specs.Choice.{pick};
ghost use Rattle.row.specs.Row.{width, row_length};
ghost use Rattle.table.specs.Names.{identifier_tag};
ghost use Rattle.table.specs.Rows.{rows_of, count};
ghost use Rattle.table.specs.Lookups.{most_words};
ghost use Rattle.rules.specs.Verdict.{judge as judge_of};
ghost use Rattle.recording.specs.Lines.{lines};
ghost use Rattle.recording.specs.Replay.{read_values};
ghost use Rattle.values.specs.Values.{values_of, lines_at};
ghost use Rattle.bench.specs.Choice.{asked, chosen, choice, choice_of as choice_found};
ghost use Rattle.bench.specs.Press.{reply_of, kept_or, press_choice, press_on, at_hand, outcome_by, outcome};
ghost use Rattle.press.specs.Numbers.{choice_of, room_for};

use after::{complete_values, update_values};
use judge::press_fault;
use nodes::Index;
use reader::next_row;
use row::{Place, Read};
use rules::Refusal;
use scan::{Scanned, Span};
use state::{copy_list, is_state};
use table::Table;
use values::{is_step_row, read_values};
use verdict::{judge_with, load};

// What the rows of a step choose: an event, whose values are stored, if they are a choice. The rows of the event e end at a byte, and the step has so many:
// "a row after the step's last" is none of a choice.
fn chosen_to(e: u64, end: usize, length: usize) -> Option<u64>
    ensures { result ≡ pick (ltb end length) None (Some e) }
{
    if end < length {
        return None;
    }
    Some(e)
}

// Reads the rows 91 of a choice of the event e, the last of its rows.
fn choose_values(
    scanned: &Scanned,
    step: &[u8],
    e: u64,
    place: Place,
    present: &mut [i64],
    after: &mut [i64],
) -> Option<u64>
    requires { (place.at ≡ row_length width) × (place.at ≤ length step.now) }
    ensures { choice_of result (values_of present.new after.new) ≡ choice_found e (read_values (rows_of scanned.now.table.words.now) e (asked (rows_of scanned.now.table.words.now) e) 2 (lines_at step.now place.at) (values_of present.old after.old)) }
{
    match read_values(scanned, true, step, e, place, present, after) {
        Err(_) => None,
        Ok(end) => chosen_to(e, end.at, step.len()),
    }
}

// Reads the rows of a choice: row 90 of a concrete event that is no initialisation, then its rows 91.
fn choose(scanned: &Scanned, step: &[u8], present: &mut [i64], after: &mut [i64]) -> Option<u64>
    ensures { choice_of result (values_of present.new after.new) ≡ choice (rows_of scanned.now.table.words.now) (lines step.now) (values_of present.old after.old) }
{
    match next_row(Place::start(), step) {
        Read::End => None,
        Read::Malformed => None,
        Read::Next(row, next) => {
            if is_step_row(&scanned.table, false, row) {
                return choose_values(scanned, step, row.a, next, present, after);
            }
            None
        }
    }
}

// Performs a step of the event e, whose values are stored, and updates the state's values; or tells the first fault.
fn press_event(
    scanned: &Scanned,
    e: u64,
    present: &[i64],
    after: &mut [i64],
    values: &mut [i64],
) -> Result<(), Refusal>
    requires { (count (rows_of scanned.now.table.words.now) identifier_tag ≤ 64) × (length values.old ≡ count (rows_of scanned.now.table.words.now) identifier_tag) × (length after.old ≡ 65) }
    ensures value { result ≡ reply_of (press_choice (rows_of scanned.now.table.words.now) values.old (chosen e (values_of present.now after.old))) }
    ensures values_after { values.new ≡ kept_or (λ zs. zs) values.old (press_choice (rows_of scanned.now.table.words.now) values.old (chosen e (values_of present.now after.old))) }
{
    complete_values(scanned, e, present, after);
    if let Err(fault) = press_fault(scanned, present, after, e) {
        return Err(Refusal {
            number: fault.number(),
            row: 0,
        });
    }
    update_values(&scanned.table, after, values);
    Ok(())
}

// The same of the event that the rows of a step choose.
fn press_step(
    scanned: &Scanned,
    step: &[u8],
    present: &mut [i64],
    after: &mut [i64],
    values: &mut [i64],
) -> Result<(), Refusal>
    requires { (count (rows_of scanned.now.table.words.now) identifier_tag ≤ 64) × (length values.old ≡ count (rows_of scanned.now.table.words.now) identifier_tag) × (length after.old ≡ 65) }
    ensures value { result ≡ reply_of (press_choice (rows_of scanned.now.table.words.now) values.old (choice (rows_of scanned.now.table.words.now) (lines step.now) (values_of present.old after.old))) }
    ensures values_after { values.new ≡ kept_or (λ zs. zs) values.old (press_choice (rows_of scanned.now.table.words.now) values.old (choice (rows_of scanned.now.table.words.now) (lines step.now) (values_of present.old after.old))) }
{
    match choose(scanned, step, present, after) {
        None => Err(Refusal {
            number: Refusal::LOG,
            row: 0,
        }),
        Some(e) => press_event(scanned, e, present, after, values),
    }
}

// The same with the state's values at hand.
fn press_values(scanned: &Scanned, step: &[u8], values: &mut [i64]) -> Result<(), Refusal>
    requires { (count (rows_of scanned.now.table.words.now) identifier_tag ≤ 64) × (length values.old ≡ count (rows_of scanned.now.table.words.now) identifier_tag) }
    ensures value { result ≡ reply_of (press_choice (rows_of scanned.now.table.words.now) values.old (choice (rows_of scanned.now.table.words.now) (lines step.now) (at_hand (rows_of scanned.now.table.words.now) values.old))) }
    ensures values_after { values.new ≡ kept_or (λ zs. zs) values.old (press_choice (rows_of scanned.now.table.words.now) values.old (choice (rows_of scanned.now.table.words.now) (lines step.now) (at_hand (rows_of scanned.now.table.words.now) values.old))) }
{
    let mut present = [0i64; Table::IDENTIFIERS as usize + 1];
    let mut after = [0i64; Table::IDENTIFIERS as usize + 1];
    copy_list(values, &mut present[1..]);
    press_step(scanned, step, &mut present, &mut after, values)
}

// Presses on a state of the table of these rows, which is accepted, where all is right that is looked at "before any term is read".
fn press_state(
    scanned: &Scanned,
    step: &[u8],
    values: &mut [i64],
    sorts: &[u64],
    room: usize,
) -> Result<(), Refusal>
    requires { count (rows_of scanned.now.table.words.now) identifier_tag ≤ 64 }
    ensures value { result ≡ reply_of (press_on (rows_of scanned.now.table.words.now) step.now values.old sorts.now room) }
    ensures values_after { values.new ≡ kept_or (λ zs. zs) values.old (press_on (rows_of scanned.now.table.words.now) step.now values.old sorts.now room) }
{
    if is_state(&scanned.table, values, sorts) & (room as u64 == scanned.table.counts.identifiers) {
        return press_values(scanned, step, values);
    }
    Err(Refusal {
        number: Refusal::LOG,
        row: 0,
    })
}

// The same of a table that may be refused, which has its own number and row.
fn press_judged(
    index: &Index,
    step: &[u8],
    values: &mut [i64],
    sorts: &[u64],
    room: usize,
) -> Result<(), Refusal>
    requires { length index.now.table.words.now ≤ most_words }
    ensures value { result ≡ reply_of (outcome_by (judge_of (rows_of index.now.table.words.now)) (press_on (rows_of index.now.table.words.now) step.now values.old sorts.now room)) }
    ensures values_after { values.new ≡ kept_or (λ zs. zs) values.old (outcome_by (judge_of (rows_of index.now.table.words.now)) (press_on (rows_of index.now.table.words.now) step.now values.old sorts.now room)) }
{
    judge_with(index)?;
    let scanned = Scanned {
        table: index.table,
        spans: index.spans,
    };
    press_state(&scanned, step, values, sorts, room)
}

// The same of the rows alone.
fn press_rows(
    words: &[u64],
    step: &[u8],
    values: &mut [i64],
    sorts: &[u64],
    room: usize,
) -> Result<(), Refusal>
    requires { length words.now ≤ most_words }
    ensures value { result ≡ reply_of (outcome_by (judge_of (rows_of words.now)) (press_on (rows_of words.now) step.now values.old sorts.now room)) }
    ensures values_after { values.new ≡ kept_or (λ zs. zs) values.old (outcome_by (judge_of (rows_of words.now)) (press_on (rows_of words.now) step.now values.old sorts.now room)) }
{
    let mut spans = [0usize; Span::WORDS];
    let index = Index::of(words, &mut spans);
    press_judged(&index, step, values, sorts, room)
}

// Presses on a state whose new values go to a list of so many records.
fn press_to(
    table: &[u8],
    step: &[u8],
    values: &mut [i64],
    sorts: &[u64],
    room: usize,
) -> Result<(), Refusal>
    ensures value { result ≡ reply_of (outcome table.now step.now values.old sorts.now room) }
    ensures values_after { values.new ≡ kept_or (λ zs. zs) values.old (outcome table.now step.now values.old sorts.now room) }
{
    let mut words = [0u64; Table::WORDS];
    let n = load(table, &mut words)?;
    press_rows(&words[..n], step, values, sorts, room)
}

// Presses on the values and the types of a state.
pub fn press_numbers(
    table: &[u8],
    step: &[u8],
    values: &mut [i64],
    sorts: &[u64],
) -> Result<(), Refusal>
    ensures value { result ≡ reply_of (outcome table.now step.now values.old sorts.now (length values.old)) }
    ensures values_after { values.new ≡ kept_or (λ zs. zs) values.old (outcome table.now step.now values.old sorts.now (length values.old)) }
{
    let room = values.len();
    press_to(table, step, values, sorts, room)
}

// How many records two lists have room for: lists of two lengths are no list of records, for which a number stands that is more than a table has identifiers.
fn room_of(values: usize, sorts: usize) -> usize
    ensures { result ≡ pick (eqb values sorts) values 65 }
{
    if values == sorts {
        return values;
    }
    Table::IDENTIFIERS as usize + 1
}

// Writes what pressing makes of a copy of the values into a second list, with the types.
fn preview_copy(
    table: &[u8],
    step: &[u8],
    copy: &mut [i64],
    sorts: &[u64],
    second: &mut [i64],
    types: &mut [u64],
) -> Result<(), Refusal>
    ensures value { result ≡ reply_of (outcome table.now step.now copy.old sorts.now (room_for second.old types.old)) }
    ensures second_after { second.new ≡ kept_or (λ zs. zs) second.old (outcome table.now step.now copy.old sorts.now (room_for second.old types.old)) }
    ensures types_after { types.new ≡ kept_or (λ zs. sorts.now) types.old (outcome table.now step.now copy.old sorts.now (room_for second.old types.old)) }
{
    let room = room_of(second.len(), types.len());
    let reply = press_to(table, step, copy, sorts, room);
    if reply.is_ok() {
        copy_list(copy, second);
        copy_list(sorts, types);
    }
    reply
}

// Writes what pressing would make of the values and the types of a state into second ones. No more than 65 values are copied: so many are no table's.
pub fn preview_numbers(
    table: &[u8],
    step: &[u8],
    values: &[i64],
    sorts: &[u64],
    second: &mut [i64],
    types: &mut [u64],
) -> Result<(), Refusal>
    ensures value { result ≡ reply_of (outcome table.now step.now values.now sorts.now (room_for second.old types.old)) }
    ensures second_after { second.new ≡ kept_or (λ zs. zs) second.old (outcome table.now step.now values.now sorts.now (room_for second.old types.old)) }
    ensures types_after { types.new ≡ kept_or (λ zs. sorts.now) types.old (outcome table.now step.now values.now sorts.now (room_for second.old types.old)) }
{
    let mut copy = [0i64; Table::IDENTIFIERS as usize + 1];
    copy_list(values, &mut copy);
    let n = values.len().min(Table::IDENTIFIERS as usize + 1);
    preview_copy(table, step, &mut copy[..n], sorts, second, types)
}
