// 01, Rows: a table's rows as words, four a row (tag, a, b, c), and where its identifiers, nodes and events stand.
#![tactic(auto)]

mod counted;
pub mod event;
pub mod identifier;
pub mod operator;
pub mod sort;
pub mod tag;

ghost use Rattle.std.specs.Prelude.{◌≡◌, ◌+◌, ◌*◌, ◌-◌, ◌^◌, ◌<◌, ◌≤◌, ◌&&◌, leb, length, get_or};
ghost use Rattle.lists.specs.Below.{one_if};
ghost use Rattle.table.specs.Names.{is_variable_of};
ghost use Rattle.table.specs.Rows.{rows_of};
ghost use Rattle.table.specs.Lookups.{operand_node};
ghost use Rattle.table.specs.Counts.{empty_counts, counted_row, counts_of, Small};

pub use counted::Counted;
use row::Row;

// How many rows stand before the identifiers, the nodes and the events of a table, and how many of these there are.
#[derive(Clone, Copy)]
pub struct Table {
    pub identifiers_start: u64,
    pub identifiers: u64,
    pub nodes_start: u64,
    pub nodes: u64,
    pub events_start: u64,
    pub events: u64,
}

// The word in a column of a row: 0 tag, 1 a, 2 b, 3 c; 0 where there is no such row.
pub fn cell(words: &[u64], row: usize, column: usize) -> u64
    requires { column < 4 }
    ensures { result ≡ get_or words.now (4 * row + column) 0 }
{
    if words.len() < row {
        return 0;
    }
    let at = 4 * row + column;
    if words.len() <= at {
        return 0;
    }
    words[at]
}

pub fn size(words: &[u64]) -> usize
    ensures { result ≡ (rows_of words.now).size }
{
    words.len() / 4
}

pub fn tag_at(words: &[u64], row: usize) -> u64
    ensures { result ≡ (rows_of words.now).tag row }
{
    cell(words, row, 0)
}

pub fn a_at(words: &[u64], row: usize) -> u64
    ensures { result ≡ (rows_of words.now).a row }
{
    cell(words, row, 1)
}

pub fn b_at(words: &[u64], row: usize) -> u64
    ensures { result ≡ (rows_of words.now).b row }
{
    cell(words, row, 2)
}

pub fn c_at(words: &[u64], row: usize) -> u64
    ensures { result ≡ (rows_of words.now).c row }
{
    cell(words, row, 3)
}

// The word in a column of the row that the number x has in a section that begins at start.
pub fn field(words: &[u64], start: u64, x: u64, column: usize) -> u64
    requires { (column < 4) × (start ≤ length words.now) }
    ensures { result ≡ get_or words.now (4 * (start + x - 1) + column) 0 }
{
    if (words.len() as u64) < x {
        return 0;
    }
    let past = start + x;
    if past == 0 {
        return cell(words, 0, column);
    }
    let at = 4 * (past - 1) as usize + column;
    if words.len() <= at {
        return 0;
    }
    words[at]
}

// One where a test passes.
pub fn one_if(test: bool) -> u64
    ensures value { result ≡ one_if test }
    ensures upper_bound { result ≤ 1 }
{
    if test { 1 } else { 0 }
}

// Whether x is one of 1 to count.
pub fn among(x: u64, count: u64) -> bool
    ensures { result ≡ leb 1 x && leb x count }
{
    (1 <= x) & (x <= count)
}

// The number that row i has in the section that begins at row start.
pub fn number_in(start: u64, i: usize) -> u64
    requires { i < 2 ^ 63 }
    ensures { result ≡ i + 1 - start }
{
    let past = i as u64 + 1;
    if past < start {
        return 0;
    }
    past - start
}

impl Table {
    // 01: "The limits belong to the table and are named once".
    pub const BYTES: usize = 65536;

    pub const ROWS: usize = Table::BYTES / Row::LENGTH;

    pub const WORDS: usize = 4 * Table::ROWS;

    pub const IDENTIFIERS: u64 = 64;

    pub const NODES: u64 = 512;

    pub const FORMULAS: u64 = 16;

    pub const EVENTS: u64 = 32;

    pub const GUARDS: u64 = 64;

    pub const ACTIONS: u64 = 128;

    pub const WITNESSES: u64 = 128;

    pub const VARIANTS: u64 = 1;

    // Columns of an identifier's, a node's and an event's row.
    pub const KIND: usize = 1;

    pub const TYPE: usize = 2;

    pub const OWNER: usize = 3;

    pub const OPERATOR: usize = 1;

    pub const LEFT: usize = 2;

    pub const RIGHT: usize = 3;

    pub const MACHINE: usize = 1;

    pub const CLASS: usize = 2;

    pub const REFINED: usize = 3;

    // The counts of no rows.
    pub fn empty() -> Self
        ensures { result ≡ empty_counts }
    {
        Self {
            identifiers_start: 0,
            identifiers: 0,
            nodes_start: 0,
            nodes: 0,
            events_start: 0,
            events: 0,
        }
    }

    // The counts with one row more.
    fn with_row(self, tag: u64) -> Self
        requires { Small self }
        ensures { result ≡ counted_row self tag }
    {
        Self {
            identifiers_start: self.identifiers_start + one_if(tag < tag::IDENTIFIER),
            identifiers: self.identifiers + one_if(tag == tag::IDENTIFIER),
            nodes_start: self.nodes_start + one_if(tag < tag::NODE),
            nodes: self.nodes + one_if(tag == tag::NODE),
            events_start: self.events_start + one_if(tag < tag::EVENT),
            events: self.events + one_if(tag == tag::EVENT),
        }
    }

    // The counts of all rows.
    pub fn of(words: &[u64]) -> Self
        ensures { result ≡ counts_of (rows_of words.now) }
    {
        let mut table = Table::empty();
        for i in 0..size(words) {
            table = table.with_row(tag_at(words, i));
        }
        table
    }
}

// Whether identifiers of a kind are variables of the machine whose own variables have another: they are its own, or shared.
pub fn is_variable_of(own: u64, kind: u64) -> bool
    ensures { result ≡ is_variable_of own kind }
{
    (kind == own) | (kind == identifier::SHARED_VARIABLE)
}

// Whether identifiers of a kind are variables of a machine: its own, whose kind is one more than its number, or shared.
pub fn variable_kind(kind: u64, machine: u64) -> bool
    ensures { result ≡ is_variable_of (1 + machine) kind }
{
    if kind == 0 {
        return false;
    }
    (kind - 1 == machine) | (kind == identifier::SHARED_VARIABLE)
}

// An operand of the node n, or 0 where it is no earlier node.
pub fn operand(n: u64, x: u64) -> u64
    ensures { result ≡ operand_node n x }
{
    if (0 < x) & (x < n) {
        return x;
    }
    0
}
