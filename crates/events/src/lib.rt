// 01, Rows: what an event's row says of the event.
#![tactic(auto)]

ghost use Rattle.std.specs.Prelude.{◌≡◌};
ghost use Rattle.lists.specs.Choice.{pick};
ghost use Rattle.table.specs.Rows.{rows_of};
ghost use Rattle.events.specs.Events.{is_abstract, is_initial, is_refining, is_matched, is_convergent, is_new, keeps_all, matched_by, own_kind, own_invariant_tag};

use table::{Counted, Table, event, identifier, tag};

// "machine: 1 abstract, 2 concrete"
pub fn is_abstract(table: &Counted, event: u64) -> bool
    ensures { result ≡ is_abstract (rows_of table.now.words.now) event }
{
    table.event_field(event, Table::MACHINE) == event::ABSTRACT
}

// "class: 0 initialisation, 1 ordinary, 2 convergent", 3 anticipated
pub fn is_initial(table: &Counted, event: u64) -> bool
    ensures { result ≡ is_initial (rows_of table.now.words.now) event }
{
    table.event_field(event, Table::CLASS) == event::INITIALISATION
}

pub fn is_refining(table: &Counted, event: u64) -> bool
    ensures { result ≡ is_refining (rows_of table.now.words.now) event }
{
    !is_abstract(table, event) & (table.event_field(event, Table::CLASS) == event::ORDINARY)
}

// A concrete initialisation or ordinary event.
pub fn is_matched(table: &Counted, event: u64) -> bool
    ensures { result ≡ is_matched (rows_of table.now.words.now) event }
{
    let class = table.event_field(event, Table::CLASS);
    !is_abstract(table, event) & ((class == event::INITIALISATION) | (class == event::ORDINARY))
}

pub fn is_convergent(table: &Counted, event: u64) -> bool
    ensures { result ≡ is_convergent (rows_of table.now.words.now) event }
{
    !is_abstract(table, event) & (table.event_field(event, Table::CLASS) == event::CONVERGENT)
}

// A convergent or anticipated event.
pub fn is_new(table: &Counted, event: u64) -> bool
    ensures { result ≡ is_new (rows_of table.now.words.now) event }
{
    let class = table.event_field(event, Table::CLASS);
    !is_abstract(table, event) & !((class == event::INITIALISATION) | (class == event::ORDINARY))
}

// 02, request 4: an initialisation, or a concrete ordinary event, keeps all its INV.
pub fn keeps_all(table: &Counted, event: u64) -> bool
    ensures { result ≡ keeps_all (rows_of table.now.words.now) event }
{
    is_initial(table, event) | is_refining(table, event)
}

// The abstract event that an event's steps are matched by.
pub fn matched_by(table: &Counted, event: u64) -> u64
    ensures { result ≡ matched_by (rows_of table.now.words.now) event }
{
    if is_initial(table, event) {
        return 1;
    }
    table.event_field(event, Table::REFINED)
}

// By an event's machine: one number where it is abstract, the other where it is concrete.
fn of_machine(table: &Counted, event: u64, one: u64, other: u64) -> u64
    ensures { result ≡ pick (is_abstract (rows_of table.now.words.now) event) one other }
{
    if is_abstract(table, event) {
        return one;
    }
    other
}

// The kind of the variables of an event's own machine.
pub fn own_kind(table: &Counted, event: u64) -> u64
    ensures { result ≡ own_kind (rows_of table.now.words.now) event }
{
    of_machine(
        table,
        event,
        identifier::ABSTRACT_VARIABLE,
        identifier::CONCRETE_VARIABLE,
    )
}

// The tag of its invariants.
pub fn own_invariant_tag(table: &Counted, event: u64) -> u64
    ensures { result ≡ own_invariant_tag (rows_of table.now.words.now) event }
{
    of_machine(
        table,
        event,
        tag::ABSTRACT_INVARIANT,
        tag::CONCRETE_INVARIANT,
    )
}
