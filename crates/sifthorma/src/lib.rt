// The services for C and Rust (include/sifthorma.h): each answers 0 or a refusal's number, and puts the count or the row into `value`.
#![tactic(auto)]

ghost use Rattle.std.specs.Prelude.{◌≡◌};
ghost use Rattle.rules.specs.Verdict.{verdict as verdict_of};
ghost use Rattle.reply.specs.Replies.{write_sequent, spell_entry};
ghost use Rattle.recording.specs.Replay.{replay as replay_of};
ghost use Rattle.bench.specs.Press.{press as press_of, preview as preview_of};
ghost use Rattle.sifthorma.specs.Codes.{number_of, value_of, counted};

use bench::Record;
use records::{press, preview};
use rules::Refusal;
use services::{spell_entry, write_sequent};
use steps::replay;
use verdict::check;

// The number of an answer, whose value goes to `value`: the count, or the row of a refusal.
fn tell(answer: Result<u64, Refusal>, value: &mut u64) -> u64
    ensures reply { result ≡ number_of answer }
    ensures value_after { value.new ≡ value_of answer }
{
    match answer {
        Ok(count) => {
            *value = count;
            0
        }
        Err(refusal) => {
            *value = refusal.row;
            refusal.number
        }
    }
}

// Pressing counts nothing: 0, or the refusal.
fn counted(reply: Result<(), Refusal>) -> Result<u64, Refusal>
    ensures { result ≡ counted reply }
{
    reply?;
    Ok(0)
}

// check: the count of sequents, or refusal 1 to 12.
#[unsafe(no_mangle)]
pub extern "C" fn sifthorma_check(table: &[u8], value: &mut u64) -> u64
    ensures reply { result ≡ number_of (verdict_of table.now) }
    ensures value_after { value.new ≡ value_of (verdict_of table.now) }
{
    tell(check(table), value)
}

// write sequent k: how many rows were written, or a refusal.
#[unsafe(no_mangle)]
pub extern "C" fn sifthorma_write_sequent(
    table: &[u8],
    k: u64,
    out: &mut [u8],
    value: &mut u64,
) -> u64
    ensures reply { result ≡ number_of (write_sequent table.now k out.old).reply }
    ensures value_after { value.new ≡ value_of (write_sequent table.now k out.old).reply }
    ensures out_after { out.new ≡ (write_sequent table.now k out.old).buffer }
{
    tell(write_sequent(table, k, out), value)
}

// spell entry j of sequent k: how many rows were written, or a refusal.
#[unsafe(no_mangle)]
pub extern "C" fn sifthorma_spell_entry(
    table: &[u8],
    k: u64,
    j: u64,
    out: &mut [u8],
    value: &mut u64,
) -> u64
    ensures reply { result ≡ number_of (spell_entry table.now k j out.old).reply }
    ensures value_after { value.new ≡ value_of (spell_entry table.now k j out.old).reply }
    ensures out_after { out.new ≡ (spell_entry table.now k j out.old).buffer }
{
    tell(spell_entry(table, k, j, out), value)
}

// replay a recorded run: how many steps follow the initialisation, or a refusal.
#[unsafe(no_mangle)]
pub extern "C" fn sifthorma_replay(table: &[u8], run: &[u8], value: &mut u64) -> u64
    ensures reply { result ≡ number_of (replay_of table.now run.now) }
    ensures value_after { value.new ≡ value_of (replay_of table.now run.now) }
{
    tell(replay(table, run), value)
}

// press: 0 when the step was performed, or a refusal, which leaves the records of the state as they were.
#[unsafe(no_mangle)]
pub extern "C" fn sifthorma_press(
    table: &[u8],
    step: &[u8],
    state: &mut [Record],
    value: &mut u64,
) -> u64
    ensures { (result ≡ number_of (counted (press_of table.now step.now state.old).reply)) × (state.new ≡ (press_of table.now step.now state.old).state) × (value.new ≡ value_of (counted (press_of table.now step.now state.old).reply)) }
{
    tell(counted(press(table, step, state)), value)
}

// preview: the same, where the second list gets the records that pressing would make of the first.
#[unsafe(no_mangle)]
pub extern "C" fn sifthorma_preview(
    table: &[u8],
    step: &[u8],
    first: &[Record],
    second: &mut [Record],
    value: &mut u64,
) -> u64
    ensures { (result ≡ number_of (counted (preview_of table.now step.now first.now second.old).reply)) × (second.new ≡ (preview_of table.now step.now first.now second.old).second) × (value.new ≡ value_of (counted (preview_of table.now step.now first.now second.old).reply)) }
{
    tell(counted(preview(table, step, first, second)), value)
}
