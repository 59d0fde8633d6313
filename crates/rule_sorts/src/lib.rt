// 01, refusals 8, sort: "operand or root of the wrong sort", and 9, use: "a node without its one use". Sorts are 1 integer, 2 boolean, 3 predicate.
// A node's sort comes from its operator alone, so that no walk follows shared operands.
#![tactic(auto)]

ghost use Rattle.std.specs.Prelude.{◌≡◌, ℕ, ◌+◌, ◌^◌, ◌≤◌, ◌<◌, length, get_or, ◌||◌, eqb};
ghost use Rattle.table.specs.Names.{node_tag};
ghost use Rattle.table.specs.Rows.{rows_of, tagged};
ghost use Rattle.table.specs.Lookups.{most_rows, most_words};
ghost use Rattle.machine.specs.Operator.{result_sort};
ghost use Rattle.rules.specs.Sorts.{shape_of, operand_count, sort_of};
ghost use Rattle.rules.specs.Verdict.{first_row};
ghost use Rattle.rule_sorts.specs.Uses.{used_if, UsedTo};
ghost use Rattle.rule_sorts.specs.Walk.{first_before};
ghost use Rattle.lists.specs.Choice.{pick};
ghost use Rattle.rules.specs.Rules.{good_operands, root_sort, sort_offends, use_offends};

use operators::{find_operator, names_identifier, operand_count};
use rule_references::{names_root, root_at};
use scan::clear;
use table::{Counted, Table, a_at, b_at, c_at, number_in, size, sort, tag, tag_at};

// The sort of a node, from its operator, whatever its operands are.
pub fn sort_of(table: &Counted, n: u64) -> u64
    ensures { result ≡ sort_of (rows_of table.now.words.now) n }
{
    let found = find_operator(table.node_field(n, Table::OPERATOR));
    let shape = found.shape;
    if names_identifier(shape) {
        let identifier = table.node_field(n, Table::LEFT);
        return table.identifier_field(identifier, Table::TYPE);
    }
    found.sort
}

// Whether an operand of this sort fits the wanted one: either type where both operands are to have the same.
fn fits(wanted: u64, sort: u64) -> bool
    ensures { result ≡ pick (eqb wanted 0) (eqb sort 1 || eqb sort 2) (eqb sort wanted) }
{
    if wanted == sort::SAME_TYPE {
        return (sort == sort::INTEGER) | (sort == sort::BOOLEAN);
    }
    sort == wanted
}

// Whether the operands of the node at row i have the sorts that its operator wants.
fn good_operands(table: &Counted, i: usize) -> bool
    ensures { result ≡ good_operands (rows_of table.now.words.now) (operand_count (shape_of ((rows_of table.now.words.now).a i))) i }
{
    let found = find_operator(table.a_at(i));
    let shape = found.shape;
    let wanted = found.operands;
    let count = operand_count(shape);
    if count == 0 {
        return true;
    }
    let left = sort_of(table, table.b_at(i));
    if count == 1 {
        return fits(wanted, left);
    }
    let right = sort_of(table, table.c_at(i));
    fits(wanted, left) & (fits(wanted, right) & (!(wanted == sort::SAME_TYPE) | (left == right)))
}

// "Roots are predicates, but 51 takes the variable's type and 70 an integer."
fn root_sort(table: &Counted, i: usize) -> u64
    ensures { result ≡ root_sort (rows_of table.now.words.now) i }
{
    let tag = table.tag_at(i);
    if tag == tag::BECOMES_EQUAL {
        return table.identifier_field(table.b_at(i), Table::TYPE);
    }
    if tag == tag::VARIANT {
        return sort::INTEGER;
    }
    sort::PREDICATE
}

// Whether row i offends against check 8: a node by its operands, another row by its root.
fn sort_offends(table: &Counted, i: usize) -> bool
    ensures { result ≡ sort_offends (rows_of table.now.words.now) i }
{
    if table.tag_at(i) == tag::NODE {
        return !good_operands(table, i);
    }
    if !names_root(table.words, i) {
        return false;
    }
    !(sort_of(table, root_at(table.words, i)) == root_sort(table, i))
}

// The sort of what row i holds: of a node the one that its operator makes, of another row the one that its root is to have.
fn sort_at(table: &Counted, i: usize) -> u64
    ensures { result ≡ pick (tagged (rows_of table.now.words.now) node_tag i) (result_sort ((rows_of table.now.words.now).a i)) (root_sort (rows_of table.now.words.now) i) }
{
    if table.tag_at(i) == tag::NODE {
        let found = find_operator(table.a_at(i));
        return found.sort;
    }
    root_sort(table, i)
}

// The row where it offends, else the one found before.
fn fault_or(offends: bool, row: usize, found: usize) -> usize
    ensures { result ≡ pick offends row found }
{
    if offends { row } else { found }
}

// The first row before row i that offends against check 8, or `found`. Judges the row before i if it is of an expression, and hands it to
// `first_predicate` if it is of a predicate; so the node number falls, and no operand is followed.
#[cycle(first_expression_first_predicate)]
fn first_expression(table: &Counted, i: usize, found: usize) -> usize
    ensures { result ≡ first_before (sort_offends (rows_of table.now.words.now)) i found }
{
    if i == 0 {
        return found;
    }
    let row = i - 1;
    if sort_at(table, row) == sort::PREDICATE {
        return first_predicate(table, i, found);
    }
    first_expression(table, row, fault_or(sort_offends(table, row), row, found))
}

// The same, judging the row before i as a predicate's.
#[cycle(first_expression_first_predicate)]
fn first_predicate(table: &Counted, i: usize, found: usize) -> usize
    ensures { result ≡ first_before (sort_offends (rows_of table.now.words.now)) i found }
{
    if i == 0 {
        return found;
    }
    let row = i - 1;
    first_expression(table, row, fault_or(sort_offends(table, row), row, found))
}

// The first row that offends against check 8, or the number of rows.
pub fn first_unsorted(table: &Counted) -> usize
    ensures { result ≡ first_row (rows_of table.now.words.now) 8 }
{
    let rows = table.size();
    first_expression(table, rows, rows)
}

// Counts one use more of the node n, where a test passes.
fn use_if(uses: &mut [usize], test: bool, n: u64)
    requires { (k : ℕ) → get_or uses.old k 0 < 2 ^ 63 }
    ensures { uses.new ≡ used_if test n uses.old }
{
    if !test {
        return;
    }
    if uses.len() as u64 <= n {
        return;
    }
    let at = n as usize;
    uses[at] = uses[at] + 1;
}

// Counts the uses at row i: the operands of a node, the root of another row.
fn use_row(words: &[u64], uses: &mut [usize], i: usize)
    requires { UsedTo (rows_of words.now) i uses.old × (i < 2 ^ 61) }
    ensures { UsedTo (rows_of words.now) (i + 1) uses.new }
{
    if tag_at(words, i) == tag::NODE {
        let found = find_operator(a_at(words, i));
        let shape = found.shape;
        let count = operand_count(shape);
        use_if(uses, 0 < count, b_at(words, i));
        use_if(uses, 1 < count, c_at(words, i));
        return;
    }
    use_if(uses, names_root(words, i), root_at(words, i));
}

// Counts the uses of every node, by its number.
fn count_uses(words: &[u64], uses: &mut [usize])
    requires { length uses.old ≡ most_rows + 1 }
    ensures { UsedTo (rows_of words.now) (rows_of words.now).size uses.new }
{
    clear(uses);
    for i in 0..size(words) {
        use_row(words, uses, i);
    }
}

// Whether row i is a node without its one use.
fn use_offends(table: &Counted, uses: &[usize], i: usize) -> bool
    requires { UsedTo (rows_of table.now.words.now) (rows_of table.now.words.now).size uses.now × (i < most_rows) }
    ensures { result ≡ use_offends (rows_of table.now.words.now) i }
{
    if table.tag_at(i) != tag::NODE {
        return false;
    }
    let n = number_in(table.counts.nodes_start, i) as usize;
    !(uses[n] == 1)
}

// The first row that offends against check 9, or the number of rows, by the uses of every node.
fn find_unused(table: &Counted, uses: &[usize]) -> usize
    requires { UsedTo (rows_of table.now.words.now) (rows_of table.now.words.now).size uses.now × ((rows_of table.now.words.now).size ≤ most_rows) }
    ensures { result ≡ first_row (rows_of table.now.words.now) 9 }
{
    let rows = table.size();
    for i in 0..rows {
        if use_offends(table, uses, i) {
            return i;
        }
    }
    rows
}

// The first row that offends against check 9, or the number of rows.
pub fn first_unused(table: &Counted) -> usize
    requires { length table.now.words.now ≤ most_words }
    ensures { result ≡ first_row (rows_of table.now.words.now) 9 }
{
    let mut uses = [0usize; Table::ROWS + 1];
    count_uses(table.words, &mut uses);
    find_unused(table, &uses)
}
