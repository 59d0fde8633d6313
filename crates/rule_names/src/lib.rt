// 01, Refusals 5 event and 6 identifier: whether a row offends.
#![tactic(auto)]

ghost use Rattle.std.specs.Prelude.{◌≡◌, ◌≤◌};
ghost use Rattle.table.specs.Rows.{rows_of};
ghost use Rattle.rules.specs.Rules.{abstract_ordinary_event, good_refined, out_of_order, event_offends, owner_event, good_owner, identifier_offends};

use scan::{Query, Scanned};
use table::{Counted, Table, event, identifier, tag};

// Whether a number names an abstract ordinary event, which a concrete one may refine.
fn abstract_ordinary_event(table: &Counted, f: u64) -> bool
    ensures { result ≡ abstract_ordinary_event (rows_of table.now.words.now) f }
{
    let machine = table.event_field(f, Table::MACHINE);
    let class = table.event_field(f, Table::CLASS);
    table.named_event(f) & ((machine == event::ABSTRACT) & (class == event::ORDINARY))
}

// Whether the refined event of an event's row is right.
fn good_refined(table: &Counted, i: usize) -> bool
    ensures { result ≡ good_refined (rows_of table.now.words.now) i }
{
    let refined = table.c_at(i);
    if (table.a_at(i) == event::CONCRETE) & (table.b_at(i) == event::ORDINARY) {
        return abstract_ordinary_event(table, refined);
    }
    refined == 0
}

// Whether an event stands after one that it must stand before.
fn out_of_order(scanned: &Scanned, i: usize) -> bool
    requires { i ≤ (rows_of scanned.now.table.words.now).size }
    ensures { result ≡ out_of_order (rows_of scanned.now.table.words.now) i }
{
    let machine = scanned.table.a_at(i);
    let after_concrete = (machine == event::ABSTRACT)
        & scanned.some_row(Query::Event(event::CONCRETE), i);
    after_concrete
        | ((scanned.table.b_at(i) == event::INITIALISATION)
            & scanned.some_row(Query::Event(machine), i))
}

// 5: bad machine, class or refined event, or out of order. Only an event's row is compared with the events before it.
pub fn event_offends(scanned: &Scanned, i: usize) -> bool
    requires { i ≤ (rows_of scanned.now.table.words.now).size }
    ensures { result ≡ event_offends (rows_of scanned.now.table.words.now) i }
{
    if scanned.table.tag_at(i) != tag::EVENT {
        return false;
    }
    let machine = scanned.table.a_at(i);
    let class = scanned.table.b_at(i);
    let good_machine = (machine == event::ABSTRACT) | (machine == event::CONCRETE);
    let good_class = (class < event::CONVERGENT)
        | (((class == event::CONVERGENT) | (class == event::ANTICIPATED))
            & (machine == event::CONCRETE));
    let rest = good_refined(&scanned.table, i) & !out_of_order(scanned, i);
    !(good_machine & (good_class & rest))
}

// Whether a number names an event of a machine that may have parameters.
fn owner_event(table: &Counted, machine: u64, e: u64) -> bool
    ensures { result ≡ owner_event (rows_of table.now.words.now) machine e }
{
    let owner = table.event_field(e, Table::MACHINE);
    let class = table.event_field(e, Table::CLASS);
    table.named_event(e) & ((owner == machine) & (class != event::INITIALISATION))
}

// Whether the owner of an identifier's row is right.
fn good_owner(table: &Counted, i: usize) -> bool
    ensures { result ≡ good_owner (rows_of table.now.words.now) i }
{
    let kind = table.a_at(i);
    let owner = table.c_at(i);
    if kind == identifier::ABSTRACT_PARAMETER {
        return owner_event(table, event::ABSTRACT, owner);
    }
    if kind == identifier::CONCRETE_PARAMETER {
        return owner_event(table, event::CONCRETE, owner);
    }
    owner == 0
}

// 6: bad kind, type or owner.
pub fn identifier_offends(table: &Counted, i: usize) -> bool
    ensures { result ≡ identifier_offends (rows_of table.now.words.now) i }
{
    if table.tag_at(i) != tag::IDENTIFIER {
        return false;
    }
    let kind = table.a_at(i);
    let sort = table.b_at(i);
    let good_type = (sort == identifier::INTEGER) | (sort == identifier::BOOLEAN);
    !(((identifier::CONSTANT <= kind) & (kind <= identifier::SHARED_VARIABLE))
        & (good_type & good_owner(table, i)))
}
