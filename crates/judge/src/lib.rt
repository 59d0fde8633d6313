// 02, request 5: what is wrong with a step whose values are stored: "axioms at the initialisation, then guards, then each variable (assigned or not) in order,
// stopping at the first fault".
#![tactic(auto)]

ghost use Rattle.std.specs.Prelude.{◌≡◌, ◌≤◌};
ghost use Rattle.lists.specs.Choice.{pick};
ghost use Rattle.table.specs.Rows.{rows_of};
ghost use Rattle.signed.specs.Found.{answer_of};
ghost use Rattle.operands.specs.Operands.{value_of};
ghost use Rattle.recording.specs.Rows.{is_initial};
ghost use Rattle.recording.specs.Faults.{differs, fault_of, step_fault};
ghost use Rattle.bench.specs.Press.{press_fault};
ghost use Rattle.judge.specs.Judge.{number_of, fault_number, step_fault_of, is_judged, judged_root, root_fault, row_fault, first_untrue, action_fault, variable_fault, first_not_allowed};

use evaluate::{Env, evaluate_expression, evaluate_predicate, stored_value, value_at};
use events::is_initial;
use operands::equal_values;
use rules::Refusal;
use scan::Scanned;
use signed::{Fault, Found, Value};
use table::{Counted, Table, a_at, b_at, identifier, is_variable_of, tag, tag_at};

// What is wrong with a step: "16 marks an evaluated term outside 64 bits and 17 an undefined one"; 18 "a step that isn't allowed".
#[derive(Clone, Copy, PartialEq, Eq)]
pub enum StepFault {
    Outside,
    Undefined,
    NotAllowed,
}

impl StepFault {
    // Its number in a refusal.
    pub fn number(self) -> u64
        ensures { result ≡ number_of self }
    {
        match self {
            StepFault::Outside => Refusal::OUTSIDE,
            StepFault::Undefined => Refusal::UNDEFINED,
            StepFault::NotAllowed => Refusal::LOG,
        }
    }
}

impl From<Fault> for StepFault {
    ghost from_gives = { λ fault made. made ≡ step_fault_of fault };

    fn from(fault: Fault) -> StepFault {
        match fault {
            Fault::Outside => StepFault::Outside,
            Fault::Undefined => StepFault::Undefined,
        }
    }
}

// Values that have to be equal.
fn differs(expected: Value, found: Value) -> Result<(), StepFault>
    ensures { fault_number result ≡ differs (value_of expected) (value_of found) }
{
    if equal_values(Ok(expected), Ok(found)) {
        return Ok(());
    }
    Err(StepFault::NotAllowed)
}

// A formula that has to have a value.
fn fault_of(expected: Value, found: Found) -> Result<(), StepFault>
    ensures { fault_number result ≡ fault_of (value_of expected) (answer_of found) }
{
    differs(expected, found?)
}

// An axiom's or a guard's formula, which has to be true; it reads no after value.
fn root_fault(table: &Counted, present: &[i64], root: u64) -> Result<(), StepFault>
    ensures { fault_number result ≡ root_fault (rows_of table.now.words.now) present.now root }
{
    let env = Env {
        words: table.words,
        nodes: table.counts.nodes_start,
        identifiers: table.counts.identifiers_start,
        present,
        after: &present[..0],
    };
    let found = evaluate_predicate(&env, root);
    fault_of(Value::Truth(true), found)
}

// Whether row i is an axiom, or a guard of the event e.
fn is_judged(words: &[u64], tag: u64, e: u64, i: usize) -> bool
    ensures { result ≡ is_judged (rows_of words.now) tag e i }
{
    (tag_at(words, i) == tag) & ((tag == tag::AXIOM) | (a_at(words, i) == e))
}

// The root that an axiom or a guard names.
fn judged_root(words: &[u64], tag: u64, i: usize) -> u64
    ensures { result ≡ judged_root (rows_of words.now) tag i }
{
    if tag == tag::AXIOM {
        return a_at(words, i);
    }
    b_at(words, i)
}

// What is wrong with row i.
fn row_fault(table: &Counted, present: &[i64], tag: u64, e: u64, i: usize) -> Result<(), StepFault>
    ensures { fault_number result ≡ row_fault (rows_of table.now.words.now) present.now tag e i }
{
    if is_judged(table.words, tag, e, i) {
        return root_fault(table, present, judged_root(table.words, tag, i));
    }
    Ok(())
}

// The first fault of the axioms, or of the guards of the event e. Only the rows are read between which those of the tag stand.
fn first_untrue(scanned: &Scanned, present: &[i64], tag: u64, e: u64) -> Result<(), StepFault>
    requires { tag ≤ 50 }
    ensures { fault_number result ≡ first_untrue (rows_of scanned.now.table.words.now) present.now tag e }
{
    let span = scanned.span_at(tag);
    for i in span.from..span.to {
        row_fault(&scanned.table, present, tag, e, i)?;
    }
    Ok(())
}

// What is wrong with the after value of the variable x: "51: the root in the state before against the logged value; 52: the predicate with the logged after value;
// unassigned: unchanged".
fn action_fault(
    scanned: &Scanned,
    present: &[i64],
    after: &[i64],
    e: u64,
    x: u64,
) -> Result<(), StepFault>
    ensures { fault_number result ≡ action_fault (rows_of scanned.now.table.words.now) present.now after.now e x }
{
    let i = scanned.action_row(e, x);
    let sort = scanned.table.identifier_field(x, Table::TYPE);
    let moved = stored_value(sort, value_at(after, x));
    if scanned.table.size() <= i {
        return differs(moved, stored_value(sort, value_at(present, x)));
    }
    let root = scanned.table.c_at(i);
    let env = Env {
        words: scanned.table.words,
        nodes: scanned.table.counts.nodes_start,
        identifiers: scanned.table.counts.identifiers_start,
        present,
        after,
    };
    if scanned.table.tag_at(i) == tag::BECOMES_EQUAL {
        let found = evaluate_expression(&env, root);
        return fault_of(moved, found);
    }
    let met = evaluate_predicate(&env, root);
    fault_of(Value::Truth(true), met)
}

// The same of the identifier x, where it is a variable of the concrete machine.
fn variable_fault(
    scanned: &Scanned,
    present: &[i64],
    after: &[i64],
    e: u64,
    x: u64,
) -> Result<(), StepFault>
    ensures { fault_number result ≡ variable_fault (rows_of scanned.now.table.words.now) present.now after.now e x }
{
    let kind = scanned.table.identifier_field(x, Table::KIND);
    if is_variable_of(identifier::CONCRETE_VARIABLE, kind) {
        return action_fault(scanned, present, after, e, x);
    }
    Ok(())
}

// The first fault of the variables, in identifier order.
fn first_not_allowed(
    scanned: &Scanned,
    present: &[i64],
    after: &[i64],
    e: u64,
) -> Result<(), StepFault>
    ensures { fault_number result ≡ first_not_allowed (rows_of scanned.now.table.words.now) present.now after.now e }
{
    for x in 0..scanned.table.counts.identifiers {
        variable_fault(scanned, present, after, e, x + 1)?;
    }
    Ok(())
}

// The first fault of the axioms, where the event is an initialisation.
fn axiom_fault(scanned: &Scanned, present: &[i64], e: u64) -> Result<(), StepFault>
    ensures { fault_number result ≡ pick (is_initial (rows_of scanned.now.table.words.now) e) (first_untrue (rows_of scanned.now.table.words.now) present.now 30 e) 0 }
{
    if is_initial(&scanned.table, e) {
        return first_untrue(scanned, present, tag::AXIOM, e);
    }
    Ok(())
}

// The first fault of a step of the event e.
pub fn step_fault(
    scanned: &Scanned,
    present: &[i64],
    after: &[i64],
    e: u64,
) -> Result<(), StepFault>
    ensures { fault_number result ≡ step_fault (rows_of scanned.now.table.words.now) e present.now after.now }
{
    axiom_fault(scanned, present, e)?;
    first_untrue(scanned, present, tag::GUARD, e)?;
    first_not_allowed(scanned, present, after, e)
}

// The first fault of a step of the event e that is pressed: "by replay's rules, axioms read first each time".
pub fn press_fault(
    scanned: &Scanned,
    present: &[i64],
    after: &[i64],
    e: u64,
) -> Result<(), StepFault>
    ensures { fault_number result ≡ press_fault (rows_of scanned.now.table.words.now) e present.now after.now }
{
    first_untrue(scanned, present, tag::AXIOM, e)?;
    step_fault(scanned, present, after, e)
}
