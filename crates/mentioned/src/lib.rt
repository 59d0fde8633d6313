// 02, request 4: "a row 84 for the goal spelled out": the identifiers of a spelled entry, as a set.
#![tactic(auto)]

ghost use Rattle.std.specs.Prelude.{◌≡◌, List, ℕ};
ghost use Rattle.lists.specs.All.{All};
ghost use Rattle.sets.specs.Set.{set_of, Identifier};
ghost use Rattle.table.specs.Rows.{rows_of};
ghost use Rattle.sequent.specs.Forms.{entry_of};
ghost use Rattle.reply.specs.Printed.{mentioned_row};
ghost use Rattle.spell.specs.Spell.{witness_node};
ghost use Rattle.mentioned.specs.Mentioned.{action_set, witness_set, entry_set};

use nodes::{NotedRows, note_at};
use reply::tags;
use row::Row;
use scan::{Query, action_row, find_within, span_at};
use sequent::{Entry, form};
use sets::{count, highest, lowest, single};
use table::{c_at, size, tag, tag_at};

// The identifiers of form 4: the action of an event for a variable.
fn action_set(rows: &NotedRows, event: u64, x: u64) -> u64
    ensures { result ≡ action_set (rows_of rows.now.words.now) event x }
{
    let row = action_row(rows.words, rows.spans, event, x);
    if size(rows.words) <= row {
        return single(x);
    }
    let note = note_at(rows, c_at(rows.words, row));
    if tag_at(rows.words, row) == tag::BECOMES_EQUAL {
        return single(x) | note.mentioned;
    }
    note.mentioned
}

// The root of the witness of an event for an identifier; 0 where there is none.
fn witness_root(rows: &NotedRows, event: u64, x: u64) -> u64
    ensures { result ≡ witness_node (rows_of rows.now.words.now) event x }
{
    let query = Query::Witnesses { event, target: x };
    let witnesses = span_at(rows.words, rows.spans, tag::WITNESS);
    c_at(rows.words, find_within(rows.words, query, witnesses))
}

// Those of form 6: the witness of an event for an identifier, and this.
fn witness_set(rows: &NotedRows, event: u64, x: u64) -> u64
    ensures { result ≡ witness_set (rows_of rows.now.words.now) event x }
{
    let note = note_at(rows, witness_root(rows, event, x));
    single(x) | note.mentioned
}

// Those of an entry, by its form.
fn entry_set(rows: &NotedRows, entry: Entry) -> u64
    ensures { result ≡ entry_set (rows_of rows.now.words.now) (entry_of entry) }
{
    let form = entry.form;
    let first = entry.first;
    let second = entry.second;
    match form {
        form::DEFINED => note_at(rows, first).defined,
        form::MOVES => action_set(rows, first, second),
        form::FEASIBLE => single(second) | action_set(rows, first, second),
        form::WITNESSED => witness_set(rows, first, second),
        form::UNCHANGED => single(first),
        _ => note_at(rows, first).mentioned,
    }
}

// "how many identifiers it mentions and the lowest and highest (0 when there are none)"
pub fn mentioned_row(rows: &NotedRows, entry: Entry) -> Row
    ensures { (xs : List ℕ) → All Identifier xs → entry_set (rows_of rows.now.words.now) (entry_of entry) ≡ set_of xs → result ≡ mentioned_row xs }
{
    let set = entry_set(rows, entry);
    Row {
        tag: tags::MENTIONED,
        a: count(set),
        b: lowest(set),
        c: highest(set),
    }
}
