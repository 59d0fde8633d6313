// A set of identifiers as a word: identifier x is the digit x - 1, counted from the lowest. The union of two sets is a | b.
#![tactic(auto)]

ghost use Rattle.std.specs.Prelude.{ℕ, ◌≡◌, not, List, [], ◌∷◌, eqb};
ghost use Rattle.std.specs.Int.Bits.{bit_and};
ghost use Rattle.lists.specs.All.{All};
ghost use Rattle.lists.specs.Different.{different, lowest as lowest_of, highest as highest_of};
ghost use Rattle.sets.specs.Set.{set_of, Identifier};

// The set of one identifier; empty for a number that can't name one.
pub fn single(x: u64) -> u64
    ensures { result ≡ set_of (x ∷ []) }
{
    if x == 0 {
        return 0;
    }
    if x > 64 {
        return 0;
    }
    1 << (x - 1)
}

// Two sets have an identifier in common.
pub fn meets(a: u64, b: u64) -> bool
    ensures { result ≡ not (eqb (bit_and a b) 0) }
{
    (a & b) != 0
}

// How many identifiers a set has.
pub fn count(set: u64) -> u64
    ensures { (xs : List ℕ) → All Identifier xs → set ≡ set_of xs → result ≡ different xs }
{
    u64::count_ones(set) as u64
}

// The lowest identifier of a set; 0 for the empty set.
pub fn lowest(set: u64) -> u64
    ensures { (xs : List ℕ) → All Identifier xs → set ≡ set_of xs → result ≡ lowest_of xs }
{
    if set == 0 {
        return 0;
    }
    u64::trailing_zeros(set) as u64 + 1
}

// The highest identifier of a set; 0 for the empty set.
pub fn highest(set: u64) -> u64
    ensures { (xs : List ℕ) → All Identifier xs → set ≡ set_of xs → result ≡ highest_of xs }
{
    64 - u64::leading_zeros(set) as u64
}
