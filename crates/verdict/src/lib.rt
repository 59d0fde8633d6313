// 01, Refusals: check, from the bytes of a table to its verdict.
#![tactic(auto)]

ghost use Rattle.std.specs.Prelude.{◌≡◌, ◌^◌, ◌≤◌, ◌<◌, length};
ghost use Rattle.table.specs.Lookups.{most_words};
ghost use Rattle.table.specs.Rows.{rows_of};
ghost use Rattle.rules.specs.Verdict.{judge as judge_of, verdict as verdict_of};
ghost use Rattle.verdict.specs.Loaded.{end_row, loaded_rows, loaded_of, loaded_words};

use decode::{Malformed, decode};
use fault::{first_check, first_row};
use nodes::Index;
use row::Row;
use rule_missing::missing;
use rules::Refusal;
use scan::{Scanned, Span};
use table::Table;
use walk::count;

// How many words the rows of a table have, by where decoding ended, or refusal 2 with the row that is not in the row form.
fn after_decoding(decoded: Result<usize, Malformed>) -> Result<usize, Refusal>
    requires { end_row decoded < 2 ^ 61 }
    ensures { result ≡ loaded_rows decoded }
{
    match decoded {
        Ok(rows) => Ok(4 * rows),
        Err(malformed) => Err(Refusal {
            number: 2,
            row: malformed.row as u64 + 1,
        }),
    }
}

// Checks 1 and 2, and the numbers of all rows as words; their count, or the refusal.
pub fn load(bytes: &[u8], words: &mut [u64]) -> Result<usize, Refusal>
    requires { most_words ≤ length words.old }
    ensures value { result ≡ loaded_of bytes.now }
    ensures words_after { words.new ≡ loaded_words bytes.now words.old }
{
    if Table::BYTES < bytes.len() {
        return Err(Refusal { number: 1, row: 0 });
    }
    if bytes.len() % Row::LENGTH != 0 {
        return Err(Refusal { number: 1, row: 0 });
    }
    after_decoding(decode(bytes, bytes.len() / Row::LENGTH, words))
}

// Checks 3 to 12, and the count of the sequents where none offends, by the counts of the rows and what is noted of them.
pub fn judge_with(index: &Index) -> Result<u64, Refusal>
    requires { length index.now.table.words.now ≤ most_words }
    ensures { result ≡ judge_of (rows_of index.now.table.words.now) }
{
    let scanned = Scanned {
        table: index.table,
        spans: index.spans,
    };
    let check = first_check(&scanned);
    if check < Refusal::MISSING {
        let row = first_row(&scanned, check) as u64 + 1;
        return Err(Refusal { number: check, row });
    }
    if missing(&scanned) {
        return Err(Refusal {
            number: Refusal::MISSING,
            row: 0,
        });
    }
    Ok(count(index))
}

// The same, of the rows alone.
pub fn judge(words: &[u64]) -> Result<u64, Refusal>
    requires { length words.now ≤ most_words }
    ensures { result ≡ judge_of (rows_of words.now) }
{
    let mut spans = [0usize; Span::WORDS];
    let index = Index::of(words, &mut spans);
    judge_with(&index)
}

// "check (accepts a table by giving the count of sequents)"
pub fn check(bytes: &[u8]) -> Result<u64, Refusal>
    ensures { result ≡ verdict_of bytes.now }
{
    let mut words = [0u64; Table::WORDS];
    let n = load(bytes, &mut words)?;
    judge(&words[..n])
}
