// 02, request 5: the rows of a step: row 90, and its values, "rows 91 (identifier, value; booleans 0 or 1) .. in identifier order", read from a run and stored by
// identifier. Present and after values are two slices, not one struct of arrays: `replay_part` promises of lists of any length.
#![tactic(auto)]

ghost use Rattle.std.specs.Prelude.{◌≡◌, ◌+◌, ◌*◌, ◌≤◌, pos, length, get_or, set};
ghost use Rattle.lists.specs.Below.{one_if};
ghost use Rattle.lists.specs.Choice.{pick};
ghost use Rattle.row.specs.Row.{width, row_length};
ghost use Rattle.table.specs.Rows.{rows_of, kind_of};
ghost use Rattle.machine.specs.Described.{action_of};
ghost use Rattle.recording.specs.Rows.{is_state_variable, is_initial, is_given, is_logged, is_step_row, is_value_row};
ghost use Rattle.recording.specs.Replay.{store_by, moved};
ghost use Rattle.formula.specs.Values.{whole_number};
ghost use Rattle.bench.specs.Choice.{is_such_that};
ghost use Rattle.values.specs.Values.{values_of, row_at, is_told, is_wanted, wanted, ReadsValue, ReadsIdentifier, ReadsValues, Reaches};

use evaluate::value_at;
use events::is_initial;
use reader::next_row;
use recording::tags;
use row::{Place, Read, Row};
use scan::Scanned;
use signed::of_word;
use table::{Counted, Table, event, identifier, is_variable_of, tag};

// Why the rows of a step can't be read: the row that is bad, 0 where the run ends.
#[derive(Clone, Copy)]
pub struct BadRow {
    pub row: u64,
}

// The number of the row at a place.
pub fn row_number(place: Place) -> u64
    ensures { result ≡ row_at place.at }
{
    (place.at / Row::LENGTH) as u64 + 1
}

// Stores a value in a place of a list; past its end there is none.
pub fn put(values: &mut [i64], x: u64, value: i64)
    ensures { values.new ≡ set values.old x value }
{
    let i = x as usize;
    if i < values.len() {
        values[i] = value;
    }
}

// Whether a row is the row 90 of a step: the concrete initialisation first, then concrete events that are none.
pub fn is_step_row(table: &Counted, first: bool, row: Row) -> bool
    ensures { result ≡ is_step_row (rows_of table.now.words.now) first row }
{
    let e = row.a;
    let named = table.named_event(e);
    let machine = table.event_field(e, Table::MACHINE);
    let initial = is_initial(table, e);
    (row.tag == tags::STEP)
        & ((named & ((machine == event::CONCRETE) & (initial == first)))
            & ((row.b == 0) & (row.c == 0)))
}

// What is logged beside the variables: "constants .. after initialisation, else the event's parameters". Only a parameter's owner is looked up.
fn is_given(table: &Counted, initial: bool, kind: u64, e: u64, x: u64) -> bool
    requires { (initial ≡ is_initial (rows_of table.now.words.now) e) × (kind ≡ kind_of (rows_of table.now.words.now) x) }
    ensures { result ≡ is_given (rows_of table.now.words.now) e x }
{
    if initial {
        return kind == identifier::CONSTANT;
    }
    if kind != identifier::CONCRETE_PARAMETER {
        return false;
    }
    table.identifier_field(x, Table::OWNER) == e
}

// "all concrete and shared variables"
pub fn is_state_variable(table: &Counted, x: u64) -> bool
    ensures { result ≡ is_state_variable (rows_of table.now.words.now) x }
{
    let kind = table.identifier_field(x, Table::KIND);
    is_variable_of(identifier::CONCRETE_VARIABLE, kind)
}

// "booleans 0 or 1"
fn is_logged(sort: u64, value: u64) -> bool
    ensures { result ≡ is_logged sort value }
{
    !(sort == identifier::BOOLEAN) | (value <= 1)
}

// Whether a row is the row 91 of the identifier x.
fn is_value_row(table: &Counted, x: u64, row: Row) -> bool
    ensures { result ≡ is_value_row (rows_of table.now.words.now) x row }
{
    let sort = table.identifier_field(x, Table::TYPE);
    (row.tag == tags::VALUE) & ((row.a == x) & (is_logged(sort, row.b) & (row.c == 0)))
}

// A logged value: a given one is read at present, another is an after value.
fn store(given: bool, x: u64, value: i64, present: &mut [i64], after: &mut [i64])
    ensures { values_of present.new after.new ≡ store_by given x value (values_of present.old after.old) }
{
    if given {
        put(present, x, value);
    } else {
        put(after, x, value);
    }
}

// Stores the value of the row at a place, where it is the row 91 of the identifier x.
fn read_row(
    table: &Counted,
    given: bool,
    x: u64,
    row: Row,
    present: &mut [i64],
    after: &mut [i64],
) -> bool
    ensures { (result ≡ is_value_row (rows_of table.now.words.now) x row) × (values_of present.new after.new ≡ pick (is_value_row (rows_of table.now.words.now) x row) (store_by given x (whole_number row.b) (values_of present.old after.old)) (values_of present.old after.old)) }
{
    if is_value_row(table, x, row) {
        store(given, x, of_word(row.b), present, after);
        return true;
    }
    false
}

// Reads the row 91 of the identifier x.
fn read_value(
    table: &Counted,
    run: &[u8],
    given: bool,
    x: u64,
    place: Place,
    present: &mut [i64],
    after: &mut [i64],
) -> Result<Place, BadRow>
    ensures reads_value { ReadsValue (rows_of table.now.words.now) given x run.now place.at (values_of present.old after.old) result (values_of present.new after.new) }
    ensures reaches { Reaches result run.now (place.at + row_length width) }
{
    match next_row(place, run) {
        Read::End => Err(BadRow { row: 0 }),
        Read::Malformed => Err(BadRow {
            row: row_number(place),
        }),
        Read::Next(row, next) => {
            if read_row(table, given, x, row, present, after) {
                return Ok(next);
            }
            Err(BadRow {
                row: row_number(place),
            })
        }
    }
}

// Whether the action of the event e for the identifier x is a 52.
fn is_such_that(scanned: &Scanned, e: u64, x: u64) -> bool
    ensures { result ≡ is_such_that (action_of (rows_of scanned.now.table.words.now) e x) }
{
    let i = scanned.action_row(e, x);
    (i < scanned.table.size()) & !(scanned.table.tag_at(i) == tag::BECOMES_EQUAL)
}

// Whether the rows tell the after value of an identifier of this kind: a log that of each variable, a choice for a press that of a 52 alone.
fn is_told(scanned: &Scanned, pressing: bool, kind: u64, e: u64, x: u64) -> bool
    requires { kind ≡ kind_of (rows_of scanned.now.table.words.now) x }
    ensures { result ≡ is_told (rows_of scanned.now.table.words.now) pressing e x }
{
    let variable = is_variable_of(identifier::CONCRETE_VARIABLE, kind);
    if pressing {
        return is_such_that(scanned, e, x) & variable;
    }
    variable
}

// The same of an identifier that may have none.
fn read_identifier(
    scanned: &Scanned,
    pressing: bool,
    run: &[u8],
    initial: bool,
    e: u64,
    x: u64,
    place: Place,
    present: &mut [i64],
    after: &mut [i64],
) -> Result<Place, BadRow>
    requires { (initial ≡ is_initial (rows_of scanned.now.table.words.now) e) × (place.at ≤ length run.now) }
    ensures reads_identifier { ReadsIdentifier (rows_of scanned.now.table.words.now) pressing e x run.now place.at (values_of present.old after.old) result (values_of present.new after.new) }
    ensures reaches { Reaches result run.now (place.at + row_length width * one_if (is_wanted (rows_of scanned.now.table.words.now) pressing e x)) }
{
    let kind = scanned.table.identifier_field(x, Table::KIND);
    let given = is_given(&scanned.table, initial, kind, e, x);
    if given | is_told(scanned, pressing, kind, e, x) {
        return read_value(&scanned.table, run, given, x, place, present, after);
    }
    Ok(place)
}

// Reads the rows 91 of a step of the event e, "in identifier order": those of a log, or those of a choice for a press.
pub fn read_values(
    scanned: &Scanned,
    pressing: bool,
    run: &[u8],
    e: u64,
    place: Place,
    present: &mut [i64],
    after: &mut [i64],
) -> Result<Place, BadRow>
    requires { place.at ≤ length run.now }
    ensures reads_values { ReadsValues (rows_of scanned.now.table.words.now) e (wanted (rows_of scanned.now.table.words.now) pressing e) run.now place.at (values_of present.old after.old) result (values_of present.new after.new) }
    ensures reaches { Reaches result run.now (place.at + row_length width * length (wanted (rows_of scanned.now.table.words.now) pressing e)) }
{
    let initial = is_initial(&scanned.table, e);
    let mut place = place;
    for x in 0..scanned.table.counts.identifiers {
        place = read_identifier(
            scanned,
            pressing,
            run,
            initial,
            e,
            x + 1,
            place,
            present,
            after,
        )?;
    }
    Ok(place)
}

// The present value of the identifier x becomes its after value, where it is a variable of the concrete machine.
fn move_value(table: &Counted, x: u64, present: &mut [i64], after: &[i64])
    ensures { present.new ≡ pick (is_state_variable (rows_of table.now.words.now) x) (set present.old x (get_or after.now x (pos 0))) present.old }
{
    if is_state_variable(table, x) {
        put(present, x, value_at(after, x));
    }
}

// "each from the values the last one left"
pub fn move_values(table: &Counted, present: &mut [i64], after: &[i64])
    ensures { values_of present.new after.now ≡ moved (rows_of table.now.words.now) (values_of present.old after.now) }
{
    for x in 0..table.counts.identifiers {
        move_value(table, x + 1, present, after);
    }
}
