// 01, Refusals 3 tag, 4 full and 11 twice: whether a row offends.
#![tactic(auto)]

ghost use Rattle.std.specs.Prelude.{◌≡◌, ◌&&◌, ◌-◌, ◌≤◌, ◌<◌, ltb};
ghost use Rattle.table.specs.Names.{variant_tag};
ghost use Rattle.table.specs.Rows.{rows_of, Rising};
ghost use Rattle.rules.specs.Tags.{columns_used, row_limit};
ghost use Rattle.rules.specs.Rules.{tag_offends, full_offends, twice_offends};

use scan::{Query, Scanned, span_tag};
use table::{Table, b_at, c_at, tag, tag_at};

// How many of the columns a, b, c a tag uses, and how many rows it may have; none of an unknown tag.
#[derive(Clone, Copy)]
pub struct Limits {
    pub columns: u64,
    pub most: u64,
}

// Of 50, the guards; and of 51 and 52, the actions, whose rows are counted together.
fn step_limits(tag: u64) -> Limits
    requires { (50 ≤ tag) × (tag ≤ 52) }
    ensures { (result.columns ≡ columns_used tag) × (result.most ≡ row_limit tag) }
{
    if tag == tag::GUARD {
        return Limits {
            columns: 2,
            most: Table::GUARDS,
        };
    }
    Limits {
        columns: 3,
        most: Table::ACTIONS,
    }
}

// 01: "A tag is one of 10, 20, 30 to 32, 40, 50 to 52, 60, 70".
fn tag_limits(tag: u64) -> Limits
    ensures { (result.columns ≡ columns_used tag) × (result.most ≡ row_limit tag) }
{
    match tag {
        10 => Limits {
            columns: 3,
            most: Table::IDENTIFIERS,
        },
        20 => Limits {
            columns: 3,
            most: Table::NODES,
        },
        30..=32 => Limits {
            columns: 1,
            most: Table::FORMULAS,
        },
        40 => Limits {
            columns: 3,
            most: Table::EVENTS,
        },
        50..=52 => step_limits(tag),
        60 => Limits {
            columns: 3,
            most: Table::WITNESSES,
        },
        70 => Limits {
            columns: 1,
            most: Table::VARIANTS,
        },
        _ => Limits {
            columns: 0,
            most: 0,
        },
    }
}

// Whether a row's tag is lower than that of the row before it.
fn falls(words: &[u64], i: usize) -> bool
    ensures { result ≡ ltb 0 i && ltb ((rows_of words.now).tag i) ((rows_of words.now).tag (i - 1)) }
{
    if i == 0 {
        return false;
    }
    tag_at(words, i) < tag_at(words, i - 1)
}

// 3: an unknown tag, a falling one, or a number in a column that the tag does not use.
pub fn tag_offends(words: &[u64], i: usize) -> bool
    ensures { result ≡ tag_offends (rows_of words.now) i }
{
    let used = tag_limits(tag_at(words, i)).columns;
    let beyond = ((used < 2) & (b_at(words, i) != 0)) | ((used < 3) & (c_at(words, i) != 0));
    (used == 0) | (falls(words, i) | beyond)
}

// 4: as many rows before it as its tag may have. Where tags never fall these are all rows from the first of its tag on.
pub fn full_offends(scanned: &Scanned, i: usize) -> bool
    requires { Rising (rows_of scanned.now.table.words.now) × (i < (rows_of scanned.now.table.words.now).size) × ((rows_of scanned.now.table.words.now).tag i ≤ variant_tag) }
    ensures { result ≡ full_offends (rows_of scanned.now.table.words.now) i }
{
    let tag = scanned.table.tag_at(i);
    let before = i - scanned.span_at(span_tag(tag)).from;
    tag_limits(tag).most <= before as u64
}

// 11: an action or a witness whose event and target an earlier one has. It is compared with the actions, or the witnesses, before it.
pub fn twice_offends(scanned: &Scanned, i: usize) -> bool
    requires { i ≤ (rows_of scanned.now.table.words.now).size }
    ensures { result ≡ twice_offends (rows_of scanned.now.table.words.now) i }
{
    let tag = scanned.table.tag_at(i);
    if !(((tag == tag::BECOMES_EQUAL) | (tag == tag::BECOMES_SUCH)) | (tag == tag::WITNESS)) {
        return false;
    }
    let event = scanned.table.a_at(i);
    let target = scanned.table.b_at(i);
    scanned.some_row(Query::SameTarget { tag, event, target }, i)
}
