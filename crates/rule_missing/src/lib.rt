// 01, Refusal 12 missing: whether a table lacks an initialisation, an initial action, a witness, a variant, or an event for its variant.
#![tactic(auto)]

ghost use Rattle.std.specs.Prelude.{◌≡◌, not, ◌&&◌, ◌<◌, ◌^◌};
ghost use Rattle.lists.specs.Below.{some_below};
ghost use Rattle.table.specs.Rows.{rows_of};
ghost use Rattle.rules.specs.Rules.{action_wanted, witness_wanted, lacks_for, assigned, has_witness, event_lacks, missing};

use scan::{Query, Scanned};
use table::{event, identifier, number_in, tag, variable_kind};

// Whether the event at row i, whose number is event, needs an action for the identifier at row j, whose number is target, and has none.
// 02, request 2: of a shared variable "both initialisations must".
fn lacks_action(scanned: &Scanned, i: usize, j: usize, event: u64, target: u64) -> bool
    ensures { result ≡ action_wanted (rows_of scanned.now.table.words.now) i j && not (assigned (rows_of scanned.now.table.words.now) event target) }
{
    let variable = variable_kind(scanned.table.a_at(j), scanned.table.a_at(i));
    if (scanned.table.b_at(i) == event::INITIALISATION) & variable {
        return !scanned.some_row(Query::Assigns { event, target }, scanned.table.size());
    }
    false
}

// The same of a witness.
fn lacks_witness(scanned: &Scanned, i: usize, j: usize, event: u64, target: u64) -> bool
    ensures { result ≡ witness_wanted (rows_of scanned.now.table.words.now) i j && not (has_witness (rows_of scanned.now.table.words.now) event target) }
{
    let kind = scanned.table.a_at(j);
    let refining = (scanned.table.a_at(i) == event::CONCRETE)
        & (scanned.table.b_at(i) < event::CONVERGENT);
    if refining
        & ((kind == identifier::ABSTRACT_VARIABLE)
            | ((kind == identifier::ABSTRACT_PARAMETER)
                & (scanned.table.c_at(j) == scanned.table.c_at(i))))
    {
        return !scanned.some_row(Query::Witnesses { event, target }, scanned.table.size());
    }
    false
}

// Whether row j is an identifier for which the event at row i lacks an action or a witness.
fn lacks_for(scanned: &Scanned, i: usize, j: usize) -> bool
    requires { (i < 2 ^ 63) × (j < 2 ^ 63) }
    ensures { result ≡ lacks_for (rows_of scanned.now.table.words.now) i j }
{
    if scanned.table.tag_at(j) != tag::IDENTIFIER {
        return false;
    }
    let event = number_in(scanned.table.counts.events_start, i);
    let target = number_in(scanned.table.counts.identifiers_start, j);
    lacks_action(scanned, i, j, event, target) | lacks_witness(scanned, i, j, event, target)
}

// Whether row i is an event that lacks an action or a witness for some identifier.
fn event_lacks(scanned: &Scanned, i: usize) -> bool
    requires { i < 2 ^ 63 }
    ensures { result ≡ event_lacks (rows_of scanned.now.table.words.now) i }
{
    if scanned.table.tag_at(i) != tag::EVENT {
        return false;
    }
    let identifiers = scanned.span_at(tag::IDENTIFIER);
    for j in identifiers.from..identifiers.to {
        if lacks_for(scanned, i, j) {
            return true;
        }
    }
    false
}

// Whether some event does.
fn some_event_lacks(scanned: &Scanned) -> bool
    ensures { result ≡ some_below (event_lacks (rows_of scanned.now.table.words.now)) (rows_of scanned.now.table.words.now).size }
{
    let events = scanned.span_at(tag::EVENT);
    for i in events.from..events.to {
        if event_lacks(scanned, i) {
            return true;
        }
    }
    false
}

// 12: an initialisation of either machine, an action or a witness, a variant for class 2, or class 2 or 3 for a variant.
pub fn missing(scanned: &Scanned) -> bool
    ensures { result ≡ missing (rows_of scanned.now.table.words.now) }
{
    let rows = scanned.table.size();
    let abstract_initialised = scanned.some_row(Query::Initialises(event::ABSTRACT), rows);
    let concrete_initialised = scanned.some_row(Query::Initialises(event::CONCRETE), rows);
    let lacks = some_event_lacks(scanned);
    let convergent = scanned.some_row(Query::OfClass(event::CONVERGENT), rows);
    let anticipated = scanned.some_row(Query::OfClass(event::ANTICIPATED), rows);
    let variant = scanned.some_row(Query::Tagged(tag::VARIANT), rows);
    let lacks_variant = convergent & !variant;
    let lacks_new_event = variant & !(convergent | anticipated);
    !abstract_initialised | (!concrete_initialised | (lacks | (lacks_variant | lacks_new_event)))
}
