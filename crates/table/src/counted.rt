// The rows of a table together with their counts, and what is read of them.
ghost use Rattle.std.specs.Prelude.{◌≡◌, ◌+◌, ◌*◌, ◌^◌, ◌<◌, length, get_or};
ghost use Rattle.table.specs.Rows.{rows_of, named, row_of};
ghost use Rattle.table.specs.Lookups.{is_variable_number};
ghost use Rattle.table.specs.Counts.{counts_of};

use crate::{Table, among, field, identifier, is_variable_of};

// A table's rows as words, four a row, and where its identifiers, nodes and events stand.
#[derive(Clone, Copy)]
pub struct Counted<'a> {
    pub words: &'a [u64],
    pub counts: Table,
    pub ghost counted: { counts ≡ counts_of (rows_of words.now) },
    // as every slice
    pub ghost bounded: { length words.now < 2 ^ 60 },
}

impl<'a> Counted<'a> {
    // Counts the rows.
    pub fn of(words: &'a [u64]) -> Counted<'a>
        ensures { result.words ≡ words.entry }
    {
        let counts = Table::of(words);
        Counted { words, counts }
    }

    pub fn size(&self) -> usize
        ensures { result ≡ (rows_of self.now.words.now).size }
    {
        crate::size(self.words)
    }

    pub fn tag_at(&self, row: usize) -> u64
        ensures { result ≡ (rows_of self.now.words.now).tag row }
    {
        crate::tag_at(self.words, row)
    }

    pub fn a_at(&self, row: usize) -> u64
        ensures { result ≡ (rows_of self.now.words.now).a row }
    {
        crate::a_at(self.words, row)
    }

    pub fn b_at(&self, row: usize) -> u64
        ensures { result ≡ (rows_of self.now.words.now).b row }
    {
        crate::b_at(self.words, row)
    }

    pub fn c_at(&self, row: usize) -> u64
        ensures { result ≡ (rows_of self.now.words.now).c row }
    {
        crate::c_at(self.words, row)
    }

    // A column of an identifier: 1 kind, 2 type, 3 owner.
    pub fn identifier_field(&self, x: u64, column: usize) -> u64
        requires { column < 4 }
        ensures { result ≡ get_or self.now.words.now (4 * row_of (rows_of self.now.words.now) 10 x + column) 0 }
    {
        field(self.words, self.counts.identifiers_start, x, column)
    }

    // A column of a node: 1 operator, 2 and 3 operands.
    pub fn node_field(&self, n: u64, column: usize) -> u64
        requires { column < 4 }
        ensures { result ≡ get_or self.now.words.now (4 * row_of (rows_of self.now.words.now) 20 n + column) 0 }
    {
        field(self.words, self.counts.nodes_start, n, column)
    }

    // A column of an event: 1 machine, 2 class, 3 refined event.
    pub fn event_field(&self, e: u64, column: usize) -> u64
        requires { column < 4 }
        ensures { result ≡ get_or self.now.words.now (4 * row_of (rows_of self.now.words.now) 40 e + column) 0 }
    {
        field(self.words, self.counts.events_start, e, column)
    }

    // Whether an identifier is a variable of one of the machines.
    pub fn is_variable(&self, x: u64) -> bool
        ensures { result ≡ is_variable_number (rows_of self.now.words.now) x }
    {
        let kind = self.identifier_field(x, Table::KIND);
        (kind == identifier::ABSTRACT_VARIABLE)
            | is_variable_of(identifier::CONCRETE_VARIABLE, kind)
    }

    // Whether a number names an identifier.
    pub fn named_identifier(&self, x: u64) -> bool
        ensures { result ≡ named (rows_of self.now.words.now) 10 x }
    {
        among(x, self.counts.identifiers)
    }

    // Whether a number names a node.
    pub fn named_node(&self, n: u64) -> bool
        ensures { result ≡ named (rows_of self.now.words.now) 20 n }
    {
        among(n, self.counts.nodes)
    }

    // Whether a number names an event.
    pub fn named_event(&self, e: u64) -> bool
        ensures { result ≡ named (rows_of self.now.words.now) 40 e }
    {
        among(e, self.counts.events)
    }
}
