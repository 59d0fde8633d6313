// 02, request 6: the after values of a step that is pressed, and the values of the state that it leaves.
#![tactic(auto)]

ghost use Rattle.std.specs.Prelude.{◌≡◌, ◌≤◌, length, set, []};
ghost use Rattle.lists.specs.Choice.{pick};
ghost use Rattle.table.specs.Names.{identifier_tag};
ghost use Rattle.table.specs.Rows.{rows_of, count};
ghost use Rattle.answer.specs.Answer.{answer};
ghost use Rattle.answer.specs.Stored.{stored_env};
ghost use Rattle.machine.specs.Described.{tree_of, machine_of};
ghost use Rattle.signed.specs.Found.{answer_of};
ghost use Rattle.recording.specs.Rows.{is_state_variable};
ghost use Rattle.values.specs.Values.{values_of};
ghost use Rattle.bench.specs.State.{updated};
ghost use Rattle.bench.specs.Press.{answered, after_by, completed};

use evaluate::{Env, evaluate_expression, value_at};
use scan::Scanned;
use signed::{Found, Value};
use state::copy_list;
use table::{Counted, Table, tag};
use values::{is_state_variable, move_values, put};

// The number of a formula's value; where it has none, the step has a fault.
fn answered(found: Found) -> i64
    ensures { result ≡ answered (answer_of found) }
{
    match found {
        Ok(Value::Number(value)) => value,
        Ok(Value::Truth(truth)) => i64::from(truth),
        Err(_) => 0,
    }
}

// The after value that a 51 gives: the number of its root's value, which reads no after value.
fn equal_after(table: &Counted, present: &[i64], root: u64) -> i64
    ensures { result ≡ answered (answer (stored_env (machine_of (rows_of table.now.words.now)).type present.now []) (tree_of (rows_of table.now.words.now) root)) }
{
    let env = Env {
        words: table.words,
        nodes: table.counts.nodes_start,
        identifiers: table.counts.identifiers_start,
        present,
        after: &present[..0],
    };
    answered(evaluate_expression(&env, root))
}

// The after value of the variable x: a 51 reads the state before, that of a 52 is given, without an action it keeps its value.
fn after_by(scanned: &Scanned, e: u64, x: u64, present: &[i64], after: &[i64]) -> i64
    ensures { result ≡ after_by (rows_of scanned.now.table.words.now) (values_of present.now after.now) x ((machine_of (rows_of scanned.now.table.words.now)).action e x) }
{
    let i = scanned.action_row(e, x);
    if scanned.table.size() <= i {
        return value_at(present, x);
    }
    if scanned.table.tag_at(i) == tag::BECOMES_EQUAL {
        return equal_after(&scanned.table, present, scanned.table.c_at(i));
    }
    value_at(after, x)
}

// Stores the after value of the identifier x, where it is a variable of the concrete machine.
fn complete_value(scanned: &Scanned, e: u64, x: u64, present: &[i64], after: &mut [i64])
    ensures { after.new ≡ pick (is_state_variable (rows_of scanned.now.table.words.now) x) (set after.old x (after_by (rows_of scanned.now.table.words.now) (values_of present.now after.old) x ((machine_of (rows_of scanned.now.table.words.now)).action e x))) after.old }
{
    if is_state_variable(&scanned.table, x) {
        let value = after_by(scanned, e, x, present, after);
        put(after, x, value);
    }
}

// The after values of all variables of a step of the event e, of which those of its 52 actions are given.
pub fn complete_values(scanned: &Scanned, e: u64, present: &[i64], after: &mut [i64])
    ensures { values_of present.now after.new ≡ completed (rows_of scanned.now.table.words.now) e (values_of present.now after.old) }
{
    for x in 0..scanned.table.counts.identifiers {
        complete_value(scanned, e, x + 1, present, after);
    }
}

// "updates the variables' records": the values of a state after a step.
pub fn update_values(table: &Counted, after: &[i64], values: &mut [i64])
    requires { (count (rows_of table.now.words.now) identifier_tag ≤ 64) × (length values.old ≡ count (rows_of table.now.words.now) identifier_tag) × (length after.now ≡ 65) }
    ensures { values.new ≡ updated (rows_of table.now.words.now) after.now values.old }
{
    let mut left = [0i64; Table::IDENTIFIERS as usize + 1];
    copy_list(values, &mut left[1..]);
    move_values(table, &mut left, after);
    copy_list(&left[1..], values);
}
