// What is known of a table, made once and read by everything above.
ghost use Rattle.std.specs.Prelude.{◌≡◌, ◌≤◌, length};
ghost use Rattle.lists.specs.Below.{first};
ghost use Rattle.table.specs.Names.{variant_tag};
ghost use Rattle.table.specs.Rows.{rows_of};
ghost use Rattle.scan.specs.Query.{passes_of};
ghost use Rattle.scan.specs.declared.Query.TheVariants.{Assigns};
ghost use Rattle.scan.specs.Spans.{span_words, tag_span};
ghost use Rattle.nodes.specs.Notes.{Noted};

use crate::fill_notes;
use scan::Span;
use table::Counted;

// A table's rows, and in lent numbers the spans of its tags, its actions and what is noted of its nodes and events.
#[derive(Clone, Copy)]
pub struct NotedRows<'a> {
    pub words: &'a [u64],
    pub spans: &'a [usize],
    pub ghost noted: { Noted (rows_of words.now) spans.now },
}

// The same with the counts of the rows.
#[derive(Clone, Copy)]
pub struct Index<'a> {
    pub table: Counted<'a>,
    pub spans: &'a [usize],
    pub ghost noted: { Noted (rows_of table.words.now) spans.now },
}

impl<'a> Index<'a> {
    // Counts the rows and fills the lent numbers.
    pub fn of(words: &'a [u64], spans: &'a mut [usize]) -> Index<'a>
        requires { length spans.old ≡ span_words }
        ensures { result.table.words ≡ words.entry }
    {
        let table = Counted::of(words);
        fill_notes(&table, spans);
        Index { table, spans }
    }

    // The same without the counts.
    pub fn rows(&self) -> NotedRows<'a>
        ensures { (result.words ≡ self.now.table.words) × (result.spans ≡ self.now.spans) }
    {
        NotedRows {
            words: self.table.words,
            spans: self.spans,
        }
    }

    // The rows between which those of a tag stand; of 51, those of 51 and 52.
    pub fn span_at(&self, tag: u64) -> Span
        requires { tag ≤ variant_tag }
        ensures { result ≡ tag_span (rows_of self.now.table.words.now) tag }
    {
        scan::span_at(self.table.words, self.spans, tag)
    }

    // The row of an event's action for an identifier, or the number of rows.
    pub fn action_row(&self, event: u64, target: u64) -> usize
        ensures { result ≡ first (passes_of (rows_of self.now.table.words.now) (Assigns event target)) (rows_of self.now.table.words.now).size 0 }
    {
        scan::action_row(self.table.words, self.spans, event, target)
    }
}
