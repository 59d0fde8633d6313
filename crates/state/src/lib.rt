// 02, request 6: the state of the bench as the code holds it, the values and the types of its records: whether it is one, and copies of them.
#![tactic(auto)]

ghost use Rattle.std.specs.Prelude.{◌≡◌, not, ◌+◌, ◌^◌, ◌<◌, get_or};
ghost use Rattle.lists.specs.Below.{numbers};
ghost use Rattle.lists.specs.Different.{some_of};
ghost use Rattle.table.specs.Names.{identifier_tag};
ghost use Rattle.table.specs.Rows.{rows_of, count};
ghost use Rattle.bench.specs.State.{is_of_type, is_wrong, is_state, laid};

use evaluate::value_at;
use table::{Counted, Table, identifier};

// Copies a list into the first places of another, as much of it as there is room for.
pub fn copy_list<T: Copy>(from: &[T], to: &mut [T])
    ensures { to.new ≡ laid from.now to.old }
{
    let n = from.len().min(to.len());
    to[..n].copy_from_slice(&from[..n]);
}

// "booleans 0 or 1"
fn is_of_type(sort: u64, value: i64) -> bool
    ensures { result ≡ is_of_type sort value }
{
    (sort != identifier::BOOLEAN) | ((value == 0) | (value == 1))
}

// The type in a place of a list; 0 past its end.
fn sort_at(sorts: &[u64], x: u64) -> u64
    ensures { result ≡ get_or sorts.now x 0 }
{
    sorts.get(x as usize).copied().unwrap_or(0)
}

// Whether the record of the identifier after x is wrong.
fn is_wrong(table: &Counted, values: &[i64], sorts: &[u64], x: u64) -> bool
    requires { x + 1 < 2 ^ 64 }
    ensures { result ≡ is_wrong (rows_of table.now.words.now) values.now sorts.now (x + 1) }
{
    let sort = sort_at(sorts, x);
    let expected = table.identifier_field(x + 1, Table::TYPE);
    let value = value_at(values, x);
    !((sort == expected) & is_of_type(sort, value))
}

// Whether no record is wrong.
fn all_right(table: &Counted, values: &[i64], sorts: &[u64]) -> bool
    ensures { result ≡ not (some_of (is_wrong (rows_of table.now.words.now) values.now sorts.now) (numbers (count (rows_of table.now.words.now) identifier_tag) 1)) }
{
    for x in 0..table.counts.identifiers {
        if is_wrong(table, values, sorts, x) {
            return false;
        }
    }
    true
}

// Whether values and types are those of a state: one of each for each identifier, and none wrong.
pub fn is_state(table: &Counted, values: &[i64], sorts: &[u64]) -> bool
    ensures { result ≡ is_state (rows_of table.now.words.now) values.now sorts.now }
{
    let right = all_right(table, values, sorts);
    ((values.len() as u64 == table.counts.identifiers)
        & (sorts.len() as u64 == table.counts.identifiers))
        & right
}
