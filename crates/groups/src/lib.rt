// 01, "Order: WD of axioms, invariants, variant; then event by event ..": the groups of sequents, in this order.
#![tactic(auto)]

ghost use Rattle.std.specs.Prelude.{◌≡◌};
ghost use Rattle.table.specs.Names.{guard_tag, variant_tag};
ghost use Rattle.table.specs.Rows.{rows_of, refined_by};
ghost use Rattle.sequent.specs.Sequent.{WD};
ghost use Rattle.select.specs.declared.Selection.TheVariants.{Tagged, OfEvent, Assigned, SuchThat};
ghost use Rattle.select.specs.declared.Each.TheVariants.{One, Defined};
ghost use Rattle.events.specs.Events.{is_refining, own_kind, own_invariant_tag};
ghost use Rattle.groups.specs.Groups.{group_of, formulas_group, when, alone, of_event, simulated_rows, invariant_each, group_at};

use events::{
    is_convergent, is_matched, is_new, is_refining, keeps_all, own_invariant_tag, own_kind,
};
use select::{Each, Item, Selection};
use sequent::kind;
use table::{Counted, Table, event, identifier, tag};

// Rows where a test passes.
pub fn when(test: bool, rows: Selection) -> Selection
    ensures { result ≡ when test rows }
{
    if test {
        return rows;
    }
    Selection::None
}

// Rows of no event.
fn alone(event: u64, rows: Selection) -> Selection
    ensures { result ≡ alone event rows }
{
    if event == 0 {
        return rows;
    }
    Selection::None
}

// Rows of an event.
fn of_event(event: u64, rows: Selection) -> Selection
    ensures { result ≡ of_event event rows }
{
    if event == 0 {
        return Selection::None;
    }
    rows
}

// A line of 01's "Order": the kind of its sequents, the rows that they are made for, their items, and how many of a row are listed.
#[derive(Clone, Copy)]
pub struct Group {
    pub kind: u64,
    pub rows: Selection,
    pub item: Item,
    pub each: Each,
}

impl Group {
    // The groups in their order; a witness has its WD and its WFIS in one. Numbers, not an enum: the walk counts on from one to the next, and `group_at` is a list.
    pub const AXIOM: u64 = 0;

    pub const ABSTRACT_INVARIANT: u64 = 1;

    pub const CONCRETE_INVARIANT: u64 = 2;

    pub const VARIANT: u64 = 3;

    pub const GUARD: u64 = 4;

    pub const ACTION: u64 = 5;

    pub const FIS: u64 = 6;

    pub const WITNESS: u64 = 7;

    pub const GRD: u64 = 8;

    pub const SIM: u64 = 9;

    pub const INV: u64 = 10;

    pub const NAT: u64 = 11;

    pub const VAR: u64 = 12;

    pub const COUNT: u64 = 13;

    fn new(kind: u64, rows: Selection, item: Item, each: Each) -> Self
        ensures { result ≡ group_of kind rows item each }
    {
        Self {
            kind,
            rows,
            item,
            each,
        }
    }

    // WD, of formulas that divide.
    fn defined(rows: Selection, item: Item, event: u64) -> Self
        ensures { result ≡ group_of WD rows item (Defined item event) }
    {
        let each = Each::Defined { item, event };
        Group::new(kind::WD, rows, item, each)
    }

    // WD of the rows of a tag that belong to no event.
    fn formulas(event: u64, tag: u64) -> Self
        ensures { result ≡ formulas_group event tag }
    {
        Group::defined(alone(event, Selection::Tagged(tag)), Item::A, event)
    }

    // A kind of which every sequent is listed.
    fn whole(kind: u64, rows: Selection, item: Item) -> Self
        ensures { result ≡ group_of kind rows item One }
    {
        Group::new(kind, rows, item, Each::One)
    }
}

// The rows of a tag that belong to an event.
fn rows_of(event: u64, tag: u64) -> Selection
    ensures { result ≡ of_event event (OfEvent tag event) }
{
    of_event(event, Selection::OfEvent { tag, event })
}

// The variables that an event assigns, and those that it assigns by a 52.
fn assigned(table: &Counted, event: u64) -> Selection
    ensures { result ≡ of_event event (Assigned (own_kind (rows_of table.now.words.now) event) event) }
{
    let kind = own_kind(table, event);
    of_event(event, Selection::Assigned { kind, event })
}

fn such_that(table: &Counted, event: u64) -> Selection
    ensures { result ≡ of_event event (SuchThat (own_kind (rows_of table.now.words.now) event) event) }
{
    let kind = own_kind(table, event);
    of_event(event, Selection::SuchThat { kind, event })
}

// The invariants of its machine.
fn own_invariants(table: &Counted, event: u64) -> Selection
    ensures { result ≡ of_event event (Tagged (own_invariant_tag (rows_of table.now.words.now) event)) }
{
    let tag = own_invariant_tag(table, event);
    of_event(event, Selection::Tagged(tag))
}

// Which of their INV are listed.
fn invariant_each(table: &Counted, event: u64) -> Each
    ensures { result ≡ invariant_each (rows_of table.now.words.now) event }
{
    if keeps_all(table, event) {
        return Each::One;
    }
    Each::Touched(event)
}

// The guards of the event that an event refines.
fn refined_guards(table: &Counted, event: u64) -> Selection
    ensures { result ≡ of_event event (when (is_refining (rows_of table.now.words.now) event) (OfEvent guard_tag (refined_by (rows_of table.now.words.now) event))) }
{
    let refined = table.event_field(event, Table::REFINED);
    let guards = Selection::OfEvent {
        tag: tag::GUARD,
        event: refined,
    };
    of_event(event, when(is_refining(table, event), guards))
}

// The abstract variables, shared ones among them, of an event that is matched; the shared ones of a convergent or anticipated event.
fn simulated(table: &Counted, event: u64) -> Selection
    ensures { result ≡ of_event event (simulated_rows (rows_of table.now.words.now) event) }
{
    if is_matched(table, event) {
        return of_event(event, Selection::Variables(identifier::ABSTRACT_VARIABLE));
    }
    let shared = Selection::Identifiers(identifier::SHARED_VARIABLE);
    of_event(event, when(is_new(table, event), shared))
}

// The variant, of an event for which a test passes.
fn variant_when(event: u64, test: bool) -> Selection
    ensures { result ≡ of_event event (when test (Tagged variant_tag)) }
{
    of_event(event, when(test, Selection::Tagged(tag::VARIANT)))
}

// A group of an event, by number: the table of groups.
pub fn group_at(table: &Counted, event: u64, group: u64) -> Group
    ensures { result ≡ group_at (rows_of table.now.words.now) event group }
{
    match group {
        Group::AXIOM => Group::formulas(event, tag::AXIOM),
        Group::ABSTRACT_INVARIANT => Group::formulas(event, tag::ABSTRACT_INVARIANT),
        Group::CONCRETE_INVARIANT => Group::formulas(event, tag::CONCRETE_INVARIANT),
        Group::VARIANT => Group::formulas(event, tag::VARIANT),
        Group::GUARD => Group::defined(rows_of(event, tag::GUARD), Item::B, event),
        Group::ACTION => Group::defined(assigned(table, event), Item::Action, event),
        Group::FIS => Group::whole(kind::FIS, such_that(table, event), Item::Identifier),
        Group::WITNESS => Group::new(
            kind::WD,
            rows_of(event, tag::WITNESS),
            Item::C,
            Each::Witness,
        ),
        Group::GRD => Group::whole(kind::GRD, refined_guards(table, event), Item::B),
        Group::SIM => Group::whole(kind::SIM, simulated(table, event), Item::Identifier),
        Group::INV => Group::new(
            kind::INV,
            own_invariants(table, event),
            Item::A,
            invariant_each(table, event),
        ),
        Group::NAT => Group::whole(
            kind::NAT,
            variant_when(event, is_convergent(table, event)),
            Item::A,
        ),
        Group::VAR => Group::whole(
            kind::VAR,
            variant_when(event, is_new(table, event)),
            Item::A,
        ),
        _ => Group::whole(kind::WD, Selection::None, Item::A),
    }
}
