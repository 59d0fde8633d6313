// 01, Rows: the rows of a table's bytes, read in order, as words.
#![tactic(auto)]

ghost use Rattle.std.specs.Prelude.{◌≡◌, ◌*◌, ◌≤◌, length};
ghost use Rattle.lists.specs.Over.{over};
ghost use Rattle.row.specs.Row.{width, row_length};
ghost use Rattle.decode.specs.Decode.{four, first_bad, words_to, decoded_of};

use row::{Place, Read, Row};

// The first row that is not in the row form, counted from 0.
#[derive(Clone, Copy)]
pub struct Malformed {
    pub row: usize,
}

// Stores a row's numbers as the first four words.
fn store(words: &mut [u64], row: Row)
    requires { 4 ≤ length words.old }
    ensures { words.new ≡ over (four row) words.old }
{
    words[0] = row.tag;
    words[1] = row.a;
    words[2] = row.b;
    words[3] = row.c;
}

// Decodes the first rows of bytes into words, up to the first that is not in the row form; how many rows that are, where all are.
pub fn decode(bytes: &[u8], rows: usize, words: &mut [u64]) -> Result<usize, Malformed>
    requires { (row_length width * rows ≤ length bytes.now) × (4 * rows ≤ length words.old) }
    ensures value { result ≡ decoded_of (first_bad bytes.now rows) rows }
    ensures words_after { words.new ≡ over (words_to bytes.now (first_bad bytes.now rows)) words.old }
{
    let mut place = Place::start();
    for i in 0..rows {
        match place.read(bytes) {
            Read::Next(row, next) => {
                store(&mut words[4 * i..], row);
                place = next;
            }
            Read::Malformed => return Err(Malformed { row: i }),
            Read::End => return Err(Malformed { row: i }),
        }
    }
    Ok(rows)
}
