// 02, request 5: numbers in signed 64 bits, worked on by sign and magnitude so that nothing wraps.
#![tactic(auto)]

ghost use Rattle.std.specs.Prelude.{◌≡◌, ◌*◌, ◌/◌, ◌%◌, ◌^◌, ◌<◌, leb, nat_abs, negsuc, neg_ℤ, ◌+ℤ◌, ◌-ℤ◌, ◌*ℤ◌};
ghost use Rattle.formula.specs.Values.{number, whole_number, quotientℤ, remainderℤ};
ghost use Rattle.answer.specs.Answer.{within};
ghost use Rattle.signed.specs.Found.{found_of};
ghost use Rattle.signed.specs.Signed.{signedℤ};

// The value of a formula.
#[derive(Clone, Copy, PartialEq, Eq)]
pub enum Value {
    Number(i64),
    Truth(bool),
}

// Why a formula has no value: "16 marks an evaluated term outside 64 bits and 17 an undefined one".
#[derive(Clone, Copy, PartialEq, Eq)]
pub enum Fault {
    Outside,
    Undefined,
}

// What evaluating gives.
pub type Found = Result<Value, Fault>;

// 2 ^ 63, the magnitude of the least number.
const HALF: u64 = 9223372036854775808;

const GREATEST: u64 = 18446744073709551615;

// −1 − k
fn complement(k: u64) -> i64
    requires { k < 2 ^ 63 }
    ensures { result ≡ negsuc k }
{
    -1 - (k as i64)
}

fn magnitude(z: i64) -> u64
    ensures { result ≡ nat_abs z }
{
    if z < 0 {
        return (-1 - z) as u64 + 1;
    }
    z as u64
}

// The number of a sign and a magnitude, if it is in range.
fn of_parts(negative: bool, n: u64) -> Found
    ensures { result ≡ found_of (within (number (signedℤ negative n))) }
{
    if negative & (0 < n) {
        if n <= HALF {
            return Ok(Value::Number(complement(n - 1)));
        }
        return Err(Fault::Outside);
    }
    if n < HALF {
        return Ok(Value::Number(n as i64));
    }
    Err(Fault::Outside)
}

// The sum of two numbers given by sign and magnitude.
fn sum(p: bool, m: u64, q: bool, n: u64) -> Found
    ensures { result ≡ found_of (within (number (signedℤ p m +ℤ signedℤ q n))) }
{
    if p == q {
        if GREATEST - m < n {
            return Err(Fault::Outside);
        }
        return of_parts(p, m + n);
    }
    if m < n {
        return of_parts(q, n - m);
    }
    of_parts(p, m - n)
}

// Whether the product of two magnitudes is at most 2 ^ 63.
fn product_fits(m: u64, n: u64) -> bool
    ensures { result ≡ leb (m * n) 9223372036854775808 }
{
    if n == 0 {
        return true;
    }
    m <= HALF / n
}

// The quotient of two magnitudes; by 0, which no sorted formula comes to, it is 0.
fn magnitude_quotient(m: u64, n: u64) -> u64
    ensures { result ≡ m / n }
{
    if n == 0 {
        return 0;
    }
    m / n
}

// The remainder of two magnitudes; by 0, which no sorted formula comes to, it is the dividend.
fn magnitude_remainder(m: u64, n: u64) -> u64
    ensures { result ≡ m % n }
{
    if n == 0 {
        return m;
    }
    m % n
}

pub fn add(a: i64, b: i64) -> Found
    ensures { result ≡ found_of (within (number (a +ℤ b))) }
{
    sum(a < 0, magnitude(a), b < 0, magnitude(b))
}

pub fn subtract(a: i64, b: i64) -> Found
    ensures { result ≡ found_of (within (number (a -ℤ b))) }
{
    sum(a < 0, magnitude(a), 0 <= b, magnitude(b))
}

pub fn multiply(a: i64, b: i64) -> Found
    ensures { result ≡ found_of (within (number (a *ℤ b))) }
{
    let m = magnitude(a);
    let n = magnitude(b);
    if product_fits(m, n) {
        return of_parts((a < 0) != (b < 0), m * n);
    }
    Err(Fault::Outside)
}

pub fn negate(a: i64) -> Found
    ensures { result ≡ found_of (within (number (neg_ℤ a))) }
{
    of_parts(0 <= a, magnitude(a))
}

// 01, Rows: "÷ rounds toward zero". The least number by −1 is outside.
pub fn divide(a: i64, b: i64) -> Found
    ensures { result ≡ found_of (within (number (quotientℤ a b))) }
{
    of_parts(
        (a < 0) != (b < 0),
        magnitude_quotient(magnitude(a), magnitude(b)),
    )
}

// 01, Rows: "a mod b is a − b × (a ÷ b)", also of operands on which mod isn't defined.
pub fn remainder(a: i64, b: i64) -> Found
    ensures { result ≡ found_of (within (number (remainderℤ a b))) }
{
    of_parts(a < 0, magnitude_remainder(magnitude(a), magnitude(b)))
}

// The number that a word of a table stands for.
pub fn of_word(w: u64) -> i64
    ensures { result ≡ whole_number w }
{
    if w < HALF {
        return w as i64;
    }
    complement(GREATEST - w)
}
