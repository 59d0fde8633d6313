// The rows of a table with their counts and the spans of its tags, and what is looked up by these.
ghost use Rattle.std.specs.Prelude.{◌≡◌, ◌≤◌};
ghost use Rattle.lists.specs.Below.{some_below, first};
ghost use Rattle.table.specs.Names.{variant_tag};
ghost use Rattle.table.specs.Rows.{rows_of};
ghost use Rattle.scan.specs.Query.{query_tag, passes_of};
ghost use Rattle.scan.specs.declared.Query.TheVariants.{Assigns};
ghost use Rattle.scan.specs.Spans.{tag_span, Spanned};

use crate::{Query, Span};
use table::Counted;

// A table's rows with their counts, and in lent numbers the spans of its tags and the rows of its actions.
#[derive(Clone, Copy)]
pub struct Scanned<'a> {
    pub table: Counted<'a>,
    pub spans: &'a [usize],
    pub ghost spanned: { Spanned (rows_of table.words.now) spans.now },
}

impl<'a> Scanned<'a> {
    // The rows between which those of a tag stand; of 51, those of 51 and 52.
    pub fn span_at(&self, tag: u64) -> Span
        requires { tag ≤ variant_tag }
        ensures { result ≡ tag_span (rows_of self.now.table.words.now) tag }
    {
        crate::span_at(self.table.words, self.spans, tag)
    }

    // The row of an event's action for an identifier, or the number of rows.
    pub fn action_row(&self, event: u64, target: u64) -> usize
        ensures { result ≡ first (passes_of (rows_of self.now.table.words.now) (Assigns event target)) (rows_of self.now.table.words.now).size 0 }
    {
        crate::action_row(self.table.words, self.spans, event, target)
    }

    // Whether one of the rows before row n passes.
    pub fn some_row(&self, query: Query, n: usize) -> bool
        requires { (n ≤ (rows_of self.now.table.words.now).size) × (query_tag query ≤ variant_tag) }
        ensures { result ≡ some_below (passes_of (rows_of self.now.table.words.now) query) n }
    {
        crate::some_row(self.table.words, self.spans, query, n)
    }
}
