// 01, Sequents: "write sequent k, spell entry j of sequent k (goal last)". check is the crate verdict's.
#![tactic(auto)]

ghost use Rattle.std.specs.Prelude.{◌≡◌, ◌+◌, ◌*◌, ◌<◌, ◌≤◌, length, Ok};
ghost use Rattle.lists.specs.Over.{over};
ghost use Rattle.row.specs.Row.{width, row_length};
ghost use Rattle.table.specs.Lookups.{most_words};
ghost use Rattle.table.specs.Rows.{rows_of};
ghost use Rattle.machine.specs.Described.{machine_of};
ghost use Rattle.sequent.specs.Listed.{sequents};
ghost use Rattle.entries.specs.Sequent.{slot_sequent, hypothesis_count};
ghost use Rattle.rules.specs.Verdict.{Passes, judge as judge_of, verdict as verdict_of};
ghost use Rattle.rules.specs.Offence.{machine};
ghost use Rattle.reply.specs.Printed.{sequent_rows, rows_bytes};
ghost use Rattle.reply.specs.Replies.{write_rows, spell_at, write_sequent, spell_entry};
ghost use Rattle.services.specs.Found.{header_row, goal_row, rest_rows, outcome, ListedSlot, Located, serve_at, serve_by};

use entries::{count_entries, entry_at, goal_at, write_entries};
use mentioned::mentioned_row;
use nodes::Index;
use reply::tags;
use row::Row;
use rules::Refusal;
use scan::Span;
use spell::spell;
use table::{Table, among};
use verdict::{judge_with, load};
use walk::{Slot, header_item, header_kind, seek};

// The slot of sequent k, and which of its sequents it is.
pub fn find_sequent(index: &Index, k: u64) -> Slot
    requires { Passes (rows_of index.now.table.words.now) × (1 ≤ k) × (k ≤ length (sequents (machine_of (rows_of index.now.table.words.now)))) }
    ensures { Located (rows_of index.now.table.words.now) k result }
{
    seek(index, Slot::start(k - 1))
}

// The row 80 of a slot's sequent.
fn header(index: &Index, slot: Slot) -> Row
    requires { slot.row < (rows_of index.now.table.words.now).size }
    ensures { result ≡ header_row (rows_of index.now.table.words.now) slot }
{
    let item = header_item(index, slot);
    Row {
        tag: tags::SEQUENT,
        a: header_kind(index, slot),
        b: slot.event,
        c: item,
    }
}

// The row 84 of a slot's sequent, which is listed: what its goal mentions.
fn mentioned(index: &Index, slot: Slot) -> Row
    requires table_value { slot.row < (rows_of index.now.table.words.now).size }
    requires listed_slot { ListedSlot (rows_of index.now.table.words.now) slot }
    ensures { result ≡ goal_row (rows_of index.now.table.words.now) slot }
{
    mentioned_row(&index.rows(), goal_at(index, slot))
}

// Writes a slot's sequent without its row 80: row 84, then its entries into what is left of the buffer; and says how many bytes they are.
fn write_rest(index: &Index, slot: Slot, out: &mut [u8]) -> usize
    requires table_value { slot.row < (rows_of index.now.table.words.now).size }
    requires listed_slot { ListedSlot (rows_of index.now.table.words.now) slot × (row_length width * (2 + hypothesis_count (rows_of index.now.table.words.now) slot) ≤ length out.old) }
    ensures value { result ≡ row_length width * (2 + hypothesis_count (rows_of index.now.table.words.now) slot) }
    ensures out_after { out.new ≡ over (rows_bytes (rest_rows (rows_of index.now.table.words.now) slot)) out.old }
{
    mentioned(index, slot).write(out);
    Row::LENGTH + write_entries(index, slot, &mut out[Row::LENGTH..])
}

// Writes a slot's sequent, which is listed: row 80, then the rest into what is left of the buffer; and says how many bytes they are.
pub fn write_slot(index: &Index, slot: Slot, out: &mut [u8]) -> usize
    requires table_value { slot.row < (rows_of index.now.table.words.now).size }
    requires listed_slot { ListedSlot (rows_of index.now.table.words.now) slot × (row_length width * (3 + hypothesis_count (rows_of index.now.table.words.now) slot) ≤ length out.old) }
    ensures value { result ≡ row_length width * (3 + hypothesis_count (rows_of index.now.table.words.now) slot) }
    ensures out_after { out.new ≡ over (rows_bytes (sequent_rows (machine_of (rows_of index.now.table.words.now)) (slot_sequent (rows_of index.now.table.words.now) slot))) out.old }
{
    header(index, slot).write(out);
    Row::LENGTH + write_rest(index, slot, &mut out[Row::LENGTH..])
}

// Writes a slot's sequent, which is listed, where the buffer has room for it: rows 80 and 84 besides the entries.
fn write_found(index: &Index, slot: Slot, out: &mut [u8]) -> Result<u64, Refusal>
    requires table_value { slot.row < (rows_of index.now.table.words.now).size }
    requires listed_slot { ListedSlot (rows_of index.now.table.words.now) slot }
    ensures { outcome result out.new ≡ write_rows (sequent_rows (machine_of (rows_of index.now.table.words.now)) (slot_sequent (rows_of index.now.table.words.now) slot)) out.old }
{
    let wanted = count_entries(index, slot) + 2;
    if ((out.len() / Row::LENGTH) as u64) < wanted {
        return Err(Refusal {
            number: Refusal::ROOM,
            row: 0,
        });
    }
    write_slot(index, slot, out);
    Ok(wanted)
}

// Spells an entry where the buffer has room for it. The first call counts its rows: a buffer of one byte has room for none.
fn spell_found(index: &Index, slot: Slot, j: u64, out: &mut [u8]) -> Result<u64, Refusal>
    requires { slot.row < (rows_of index.now.table.words.now).size }
    ensures { outcome result out.new ≡ spell_at (machine_of (rows_of index.now.table.words.now)) (slot_sequent (rows_of index.now.table.words.now) slot) j out.old }
{
    if !among(j, count_entries(index, slot)) {
        return Err(Refusal {
            number: Refusal::ENTRY,
            row: 0,
        });
    }
    let entry = entry_at(index, slot, j - 1);
    let mut none = [0u8; 1];
    let rows = spell(&index.table, entry, &mut none);
    if ((out.len() / Row::LENGTH) as u64) < rows {
        return Err(Refusal {
            number: Refusal::ROOM,
            row: 0,
        });
    }
    spell(&index.table, entry, out);
    Ok(rows)
}

// What is asked of a sequent: its rows, or an entry of it spelled.
#[derive(Clone, Copy)]
pub enum Request {
    Write,
    Spell(u64),
}

// Does what is asked of the sequent in a slot, which is listed.
fn serve_found(index: &Index, slot: Slot, request: Request, out: &mut [u8]) -> Result<u64, Refusal>
    requires table_value { slot.row < (rows_of index.now.table.words.now).size }
    requires listed_slot { ListedSlot (rows_of index.now.table.words.now) slot }
    ensures { outcome result out.new ≡ serve_at (machine_of (rows_of index.now.table.words.now)) request out.old (slot_sequent (rows_of index.now.table.words.now) slot) }
{
    match request {
        Request::Write => write_found(index, slot, out),
        Request::Spell(j) => spell_found(index, slot, j, out),
    }
}

// Does what is asked of sequent k of an accepted table with so many sequents.
fn serve_accepted(
    index: &Index,
    count: u64,
    k: u64,
    request: Request,
    out: &mut [u8],
) -> Result<u64, Refusal>
    requires { judge_of (rows_of index.now.table.words.now) ≡ Ok count }
    ensures { outcome result out.new ≡ serve_by (machine_of (rows_of index.now.table.words.now)) (Ok count) k request out.old }
{
    if !among(k, count) {
        return Err(Refusal {
            number: Refusal::SEQUENT,
            row: 0,
        });
    }
    let slot = find_sequent(index, k);
    serve_found(index, slot, request, out)
}

// Does what is asked of sequent k of the table of these rows, where it is accepted.
fn serve_judged(index: &Index, k: u64, request: Request, out: &mut [u8]) -> Result<u64, Refusal>
    requires { length index.now.table.words.now ≤ most_words }
    ensures { outcome result out.new ≡ serve_by (machine_of (rows_of index.now.table.words.now)) (judge_of (rows_of index.now.table.words.now)) k request out.old }
{
    let count = judge_with(index)?;
    serve_accepted(index, count, k, request, out)
}

// The same, of the rows alone: they are counted, and what is asked of them again and again is noted, once.
fn serve_rows(words: &[u64], k: u64, request: Request, out: &mut [u8]) -> Result<u64, Refusal>
    requires { length words.now ≤ most_words }
    ensures { outcome result out.new ≡ serve_by (machine_of (rows_of words.now)) (judge_of (rows_of words.now)) k request out.old }
{
    let mut spans = [0usize; Span::WORDS];
    let index = Index::of(words, &mut spans);
    serve_judged(&index, k, request, out)
}

// Does what is asked of sequent k of a table.
fn serve(bytes: &[u8], k: u64, request: Request, out: &mut [u8]) -> Result<u64, Refusal>
    ensures { outcome result out.new ≡ serve_by (machine bytes.now) (verdict_of bytes.now) k request out.old }
{
    let mut words = [0u64; Table::WORDS];
    let n = load(bytes, &mut words)?;
    serve_rows(&words[..n], k, request, out)
}

// "write sequent k": rows 80, 84, 81 and 82 into the front of the buffer.
pub fn write_sequent(table: &[u8], k: u64, out: &mut [u8]) -> Result<u64, Refusal>
    ensures { outcome result out.new ≡ write_sequent table.now k out.old }
{
    serve(table, k, Request::Write, out)
}

// "spell entry j of sequent k (goal last)": rows 83 into the front of the buffer.
pub fn spell_entry(table: &[u8], k: u64, j: u64, out: &mut [u8]) -> Result<u64, Refusal>
    ensures { outcome result out.new ≡ spell_entry table.now k j out.old }
{
    serve(table, k, Request::Spell(j), out)
}
