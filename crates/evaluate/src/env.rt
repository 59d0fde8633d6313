// At what a table's formulas are read.
ghost use Rattle.std.specs.Prelude.{◌≡◌, ◌+◌, ◌*◌, ◌<◌, get_or};
ghost use Rattle.table.specs.Names.{identifier_tag, node_tag};
ghost use Rattle.table.specs.Rows.{rows_of, row_of, start};

use table::field;

// The rows of a table, where its nodes and identifiers start, and the present and after values of identifiers by number. It is handed from node to node.
#[derive(Clone, Copy)]
pub struct Env<'a> {
    pub words: &'a [u64],
    pub nodes: u64,
    pub identifiers: u64,
    pub present: &'a [i64],
    pub after: &'a [i64],
    pub ghost nodes_start: { nodes ≡ start (rows_of words.now) node_tag },
    pub ghost identifiers_start: { identifiers ≡ start (rows_of words.now) identifier_tag },
}

impl<'a> Env<'a> {
    // A column of a node: 1 operator, 2 and 3 operands.
    pub fn node_field(&self, n: u64, column: usize) -> u64
        requires { column < 4 }
        ensures { result ≡ get_or self.now.words.now (4 * row_of (rows_of self.now.words.now) node_tag n + column) 0 }
    {
        field(self.words, self.nodes, n, column)
    }

    // A column of an identifier: 1 kind, 2 type, 3 owner.
    pub fn identifier_field(&self, x: u64, column: usize) -> u64
        requires { column < 4 }
        ensures { result ≡ get_or self.now.words.now (4 * row_of (rows_of self.now.words.now) identifier_tag x + column) 0 }
    {
        field(self.words, self.identifiers, x, column)
    }
}
