// 02, request 6: "The state is a lent list of records". Only `load` and `store` touch a record; what is evaluated are numbers, loaded from the list and stored into it.
#![tactic(auto)]

ghost use Rattle.std.specs.Prelude.{◌≡◌, ◌<◌, length, get_or, set};
ghost use Rattle.bench.specs.Press.{press as press_of, preview as preview_of};
ghost use Rattle.records.specs.Numbers.{few_of, no_record, no_numbers, with_record, loaded, record_at, stored, pressed_of, previewed_of};

use bench::Record;
use press::{press_numbers, preview_numbers};
use rules::Refusal;
use table::Table;

// Record i.
pub fn load(state: &[Record], i: usize) -> Record
    requires { i < length state.now }
    ensures { result ≡ get_or state.now i no_record }
{
    state[i]
}

// Record i becomes r.
pub fn store(state: &mut [Record], i: usize, r: Record)
    requires { i < length state.old }
    ensures { state.new ≡ set state.old i r }
{
    state[i] = r;
}

// One more than a table may have identifiers: a list of so many records is of another length whatever follows.
pub const PLACES: usize = Table::IDENTIFIERS as usize + 1;

// The first records of a state as numbers, by position.
#[derive(Clone, Copy)]
pub struct Numbers {
    pub values: [i64; PLACES],
    pub sorts: [u64; PLACES],
}

// How many records of n are looked at.
fn few(n: usize) -> usize
    ensures { result ≡ few_of n }
{
    if n < PLACES {
        return n;
    }
    PLACES
}

// The numbers of no record.
fn no_numbers() -> Numbers
    ensures { result ≡ no_numbers }
{
    Numbers {
        values: [0; PLACES],
        sorts: [0; PLACES],
    }
}

// The numbers with those of r in place i.
fn put(all: Numbers, i: usize, r: Record) -> Numbers
    ensures { result ≡ with_record all i r }
{
    if PLACES <= i {
        return all;
    }
    let mut values = all.values;
    let mut sorts = all.sorts;
    let value = r.value;
    let sort = r.sort;
    values[i] = value;
    sorts[i] = sort;
    Numbers { values, sorts }
}

// Record i of the numbers.
fn at(all: Numbers, i: usize) -> Record
    ensures { result ≡ record_at all i }
{
    if PLACES <= i {
        return Record { value: 0, sort: 0 };
    }
    let values = all.values;
    let sorts = all.sorts;
    let value = values[i];
    let sort = sorts[i];
    Record { value, sort }
}

// The numbers of the first records.
pub fn load_state(state: &[Record]) -> Numbers
    ensures { result ≡ loaded (few_of (length state.now)) state.now }
{
    let n = few(state.len());
    let mut all = no_numbers();
    for i in 0..n {
        let r = load(state, i);
        all = put(all, i, r);
    }
    all
}

// The first records become those of the numbers.
pub fn store_state(state: &mut [Record], all: Numbers)
    ensures { state.new ≡ stored all (few_of (length state.old)) state.old }
{
    let n = few(state.len());
    for i in 0..n {
        let r = at(all, i);
        store(state, i, r);
    }
}

// What a state's numbers become, and the reply.
#[derive(Clone, Copy)]
pub struct Done {
    pub numbers: Numbers,
    pub reply: Result<(), Refusal>,
}

// What pressing makes of the numbers of n records.
fn pressed(table: &[u8], step: &[u8], all: Numbers, n: usize) -> Done
    ensures { result ≡ pressed_of table.now step.now all (few_of n) }
{
    let end = few(n);
    let mut values = all.values;
    let sorts = all.sorts;
    let reply = press_numbers(table, step, &mut values[..end], &sorts[..end]);
    let numbers = Numbers { values, sorts };
    Done { numbers, reply }
}

// What a preview from the numbers of n records makes of those of m.
fn previewed(table: &[u8], step: &[u8], first: Numbers, n: usize, second: Numbers, m: usize) -> Done
    ensures { result ≡ previewed_of table.now step.now first (few_of n) second (few_of m) }
{
    let end = few(n);
    let room = few(m);
    let from_values = first.values;
    let from_sorts = first.sorts;
    let mut values = second.values;
    let mut sorts = second.sorts;
    let reply = preview_numbers(
        table,
        step,
        &from_values[..end],
        &from_sorts[..end],
        &mut values[..room],
        &mut sorts[..room],
    );
    let numbers = Numbers { values, sorts };
    Done { numbers, reply }
}

// press: "performs one concrete step and updates the variables' records".
pub fn press(table: &[u8], step: &[u8], state: &mut [Record]) -> Result<(), Refusal>
    ensures { (result ≡ (press_of table.now step.now state.old).reply) × (state.new ≡ (press_of table.now step.now state.old).state) }
{
    let all = load_state(state);
    let done = pressed(table, step, all, state.len());
    let numbers = done.numbers;
    store_state(state, numbers);
    done.reply
}

// preview: "writes into a second lent list what pressing would make of the first, which keeps its records".
pub fn preview(
    table: &[u8],
    step: &[u8],
    first: &[Record],
    second: &mut [Record],
) -> Result<(), Refusal>
    ensures { (result ≡ (preview_of table.now step.now first.now second.old).reply) × (second.new ≡ (preview_of table.now step.now first.now second.old).second) }
{
    let from = load_state(first);
    let kept = load_state(second);
    let done = previewed(table, step, from, first.len(), kept, second.len());
    let numbers = done.numbers;
    store_state(second, numbers);
    done.reply
}
