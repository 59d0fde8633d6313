// 01, Refusals: "Checks run by number, each over the whole table". One dispatch for the checks 3 to 11, and one first-offender loop for those that judge each row by itself.
#![tactic(auto)]

ghost use Rattle.std.specs.Prelude.{◌≡◌, ◌≤◌, ◌<◌, length};
ghost use Rattle.table.specs.Rows.{rows_of};
ghost use Rattle.table.specs.Lookups.{most_words};
ghost use Rattle.rules.specs.Rules.{offends};
ghost use Rattle.rules.specs.Verdict.{first_row, first_check, PassedBefore};

use rule_names::{event_offends, identifier_offends};
use rule_references::reference_offends;
use rule_sight::sight_offends;
use rule_sorts::{first_unsorted, first_unused};
use rule_tags::{full_offends, tag_offends, twice_offends};
use rules::Refusal;
use scan::Scanned;

// Whether the row at i offends against a check that judges each row by itself, which 8 and 9 do not. Those before it have passed.
fn row_offends(scanned: &Scanned, check: u64, i: usize) -> bool
    requires table_value { i < (rows_of scanned.now.table.words.now).size }
    requires passed_before { PassedBefore (rows_of scanned.now.table.words.now) check × (check ≡ 8 → ⊥) × (check ≡ 9 → ⊥) }
    ensures { result ≡ offends (rows_of scanned.now.table.words.now) check i }
{
    match check {
        Refusal::TAG => tag_offends(scanned.table.words, i),
        Refusal::FULL => full_offends(scanned, i),
        Refusal::EVENT => event_offends(scanned, i),
        Refusal::IDENTIFIER => identifier_offends(&scanned.table, i),
        Refusal::REFERENCE => reference_offends(&scanned.table, i),
        Refusal::SIGHT => sight_offends(&scanned.table, i),
        Refusal::TWICE => twice_offends(scanned, i),
        _ => false,
    }
}

// The first row that offends against a check, counted from 0, or the number of rows, where the checks before it have passed. The checks of sorts and of uses go over
// the rows themselves.
pub fn first_row(scanned: &Scanned, check: u64) -> usize
    requires table_value { length scanned.now.table.words.now ≤ most_words }
    requires passed_before { PassedBefore (rows_of scanned.now.table.words.now) check }
    ensures { result ≡ first_row (rows_of scanned.now.table.words.now) check }
{
    if check == Refusal::SORT {
        return first_unsorted(&scanned.table);
    }
    if check == Refusal::USE {
        return first_unused(&scanned.table);
    }
    let rows = scanned.table.size();
    for i in 0..rows {
        if row_offends(scanned, check, i) {
            return i;
        }
    }
    rows
}

// The first check from 3 on against which a row offends, or the last.
pub fn first_check(scanned: &Scanned) -> u64
    requires { length scanned.now.table.words.now ≤ most_words }
    ensures { result ≡ first_check (rows_of scanned.now.table.words.now) }
{
    let rows = scanned.table.size();
    for check in Refusal::TAG..Refusal::MISSING {
        if first_row(scanned, check) < rows {
            return check;
        }
    }
    Refusal::MISSING
}
