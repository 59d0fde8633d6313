// 01, Rows: a decimal number in columns, read and written. A number is a word of 64 bits, a negative one in two's complement.
// Numbers run from -greatest - 1 to greatest.
#![tactic(auto)]

ghost use Rattle.std.specs.Prelude.{◌≡◌, length, get_or, take, drop, ◌≤◌, ◌<◌, ◌+◌, ◌-◌, ◌^◌};
ghost use Rattle.lists.specs.Over.{over};
ghost use Rattle.lists.specs.Choice.{pick};
ghost use Rattle.number.specs.Number.{space, digit_zero, Spaces, Minus, Digits, most_of, text_of, columns_of};
ghost use Rattle.number.specs.Reading.{Prefix, word_of, digit_of, after_spaces, scan_from, value_of, number_of, BlankTo};

// ASCII.
const SPACE: u8 = 32;

const MINUS: u8 = 45;

const ZERO: u8 = 48;

const NINE: u8 = 57;

// The first word of a negative number.
const FIRST_NEGATIVE: u64 = 9223372036854775808;

// The largest magnitude in range.
fn most(greatest: u64, negative: bool) -> u64
    requires { greatest < 2 ^ 63 }
    ensures { result ≡ most_of greatest negative }
{
    if negative { greatest + 1 } else { greatest }
}

// The two's complement of a word other than 0.
fn negated(word: u64) -> u64
    requires { 0 < word }
    ensures { result ≡ 2 ^ 64 - word }
{
    18446744073709551615 - word + 1
}

// The word of a sign and a magnitude.
fn word(negative: bool, magnitude: u64) -> u64
    ensures { result ≡ word_of negative magnitude }
{
    if magnitude == 0 {
        return 0;
    }
    if negative {
        negated(magnitude)
    } else {
        magnitude
    }
}

// The number whose digits are the columns from at on. The first of them is no zero.
fn digits(greatest: u64, negative: bool, columns: &[u8], at: usize) -> Option<u64>
    requires { (greatest < 2 ^ 63) × (at < length columns.now) × (get_or columns.now at 0 ≡ digit_zero → ⊥) }
    ensures { result ≡ value_of (scan_from greatest (digit_of greatest negative 0 (get_or columns.now at 0)) (drop (at + 1) columns.now)) }
{
    let most = most(greatest, negative);
    let mut m = 0;
    for &b in &columns[at..] {
        if (b < ZERO) | (NINE < b) {
            return None;
        }
        // tested before the product, which then fits a word
        if most / 10 < m {
            return None;
        }
        m = m * 10 + ((b - ZERO) as u64);
        if most < m {
            return None;
        }
    }
    Some(word(negative, m))
}

// The number whose minus stands before the columns from at on. Neither a minus zero nor a leading zero follows it.
fn after_minus(greatest: u64, columns: &[u8], at: usize) -> Option<u64>
    requires { greatest < 2 ^ 63 }
    ensures { result ≡ value_of (scan_from greatest (Prefix Minus) (drop at columns.now)) }
{
    if columns.len() <= at {
        return None;
    }
    if columns[at] == ZERO {
        return None;
    }
    digits(greatest, true, columns, at)
}

// The number whose first byte after spaces is the column at. No digit follows a leading zero.
fn after_spaces(greatest: u64, columns: &[u8], at: usize) -> Option<u64>
    requires { (greatest < 2 ^ 63) × (at < length columns.now) × (get_or columns.now at 0 ≡ space → ⊥) }
    ensures { result ≡ value_of (scan_from greatest (Prefix Spaces) (drop at columns.now)) }
{
    let b = columns[at];
    if b == ZERO {
        if at + 1 < columns.len() {
            return None;
        }
        return Some(0);
    }
    if b == MINUS {
        return after_minus(greatest, columns, at + 1);
    }
    digits(greatest, false, columns, at)
}

// Two columns more than those that are seen to be spaces, where they are spaces too.
fn blank_on(columns: &[u8], at: usize) -> usize
    requires { BlankTo at columns.now }
    ensures { BlankTo result columns.now }
{
    if columns.len() - at < 2 {
        return at;
    }
    if (columns[at] == SPACE) & (columns[at + 1] == SPACE) {
        return at + 2;
    }
    at
}

// How many of the first columns are seen to be spaces at two glances: ten, eight or none.
fn blank_start(columns: &[u8]) -> usize
    requires { 8 ≤ length columns.now }
    ensures { BlankTo result columns.now }
{
    let first = (columns[0] == SPACE)
        & (columns[1] == SPACE)
        & (columns[2] == SPACE)
        & (columns[3] == SPACE);
    let second = (columns[4] == SPACE)
        & (columns[5] == SPACE)
        & (columns[6] == SPACE)
        & (columns[7] == SPACE);
    if first & second {
        return blank_on(columns, 8);
    }
    0
}

// The number that the columns hold, where those before at are spaces.
fn read_from(greatest: u64, columns: &[u8], at: usize) -> Option<u64>
    requires { (greatest < 2 ^ 63) × BlankTo at columns.now }
    ensures { result ≡ number_of greatest columns.now }
{
    for i in at..columns.len() {
        if columns[i] != SPACE {
            return after_spaces(greatest, columns, i);
        }
    }
    None
}

// The number that the last column holds, where all before it are spaces.
fn read_last(greatest: u64, b: u8) -> Option<u64>
    ensures { result ≡ value_of (after_spaces greatest b) }
{
    if (b < ZERO) | (NINE < b) {
        return None;
    }
    let m = (b - ZERO) as u64;
    if greatest < m {
        return None;
    }
    Some(m)
}

// The number that the columns hold, all of them: few columns, as a tag's, or many, of which mostly the last one alone is no space.
pub fn read_number(greatest: u64, columns: &[u8]) -> Option<u64>
    requires { greatest < 2 ^ 63 }
    ensures { result ≡ number_of greatest columns.now }
{
    if columns.len() < 8 {
        return read_from(greatest, columns, blank_on(columns, 0));
    }
    let at = blank_start(columns);
    if columns.len() - at == 1 {
        return read_last(greatest, columns[at]);
    }
    read_from(greatest, columns, at)
}

// Spaces in the first columns of out, as many as width says.
fn blank(out: &mut [u8], width: usize)
    requires { width ≤ length out.old }
    ensures { out.new ≡ over (columns_of width Spaces) out.old }
{
    out[..width].fill(SPACE);
}

// Writes the minus of a negative number into the last of the first columns of out, which hold spaces.
fn write_sign(out: &mut [u8], width: usize, negative: bool)
    requires { (width ≤ length out.old) × (take width out.old ≡ columns_of width Spaces) }
    ensures { out.new ≡ over (columns_of width (pick negative Minus Spaces)) out.old }
{
    if negative {
        if 0 < width {
            out[width - 1] = MINUS;
        }
    }
}

// Writes a sign and a magnitude right-justified into the first columns of out, which hold spaces.
fn write_digits(out: &mut [u8], width: usize, negative: bool, magnitude: u64)
    requires { (width ≤ length out.old) × (take width out.old ≡ columns_of width Spaces) }
    ensures { out.new ≡ over (columns_of width (Digits negative magnitude)) out.old }
{
    let mut m = magnitude;
    for i in (0..width).rev() {
        out[i] = ZERO + (m % 10) as u8;
        if m < 10 {
            write_sign(out, i, negative);
            return;
        }
        m /= 10;
    }
}

// Writes the number right-justified into the first columns of out, as many as width says.
pub fn write_number(out: &mut [u8], width: usize, word: u64)
    requires { width ≤ length out.old }
    ensures { out.new ≡ over (columns_of width (text_of word)) out.old }
{
    blank(out, width);
    if word < FIRST_NEGATIVE {
        write_digits(out, width, false, word);
    } else {
        write_digits(out, width, true, negated(word));
    }
}
