ghost use Rattle.std.specs.Prelude.{◌≡◌, ℕ, ◌+◌, ◌*◌, ◌<◌, ◌≤◌, ◌↔◌, length, IsTrue, ◌&&◌, ◌||◌, not, true, false};
ghost use Rattle.std.specs.Int.{bit_at};
ghost use Rattle.cell_sets.specs.Bits.{bit_of};

pub(crate) fn bit(words: &[u64], b: u32) -> bool
    requires { b < 64 * length words.now }
    ensures { result ≡ bit_of words.now b }
{
    (words[(b / 64) as usize] >> (b % 64)) & 1 == 1
}

// How many bits of the word, from the lowest on, are as the lowest is.
fn as_lowest(word: u64) -> u32
    ensures some { 0 < result }
    ensures same { (k : ℕ) → k < result → k < 64 → bit_at word k ≡ bit_at word 0 }
{
    if word & 1 == 1 {
        word.trailing_ones()
    } else {
        word.trailing_zeros()
    }
}

// How many bits from bit `b` on, to the end of its word at most, are as that bit is.
pub(crate) fn same_count(words: &[u64], b: u32) -> u32
    requires { b < 64 * length words.now }
    ensures some { 0 < result }
    ensures same { (q : ℕ) → b ≤ q → q < b + result → bit_of words.now q ≡ bit_of words.now b }
{
    let place = b % 64;
    as_lowest(words[(b / 64) as usize] >> place).min(64 - place)
}

pub(crate) fn set_bit(words: &mut [u64], b: u32)
    requires { b < 64 * length words.old }
    ensures same { bit_of words.new b ≡ true }
    ensures others { (q : ℕ) → (q ≡ b → ⊥) → bit_of words.new q ≡ bit_of words.old q }
{
    words[(b / 64) as usize] |= 1 << (b % 64);
}

// Adds the bits of `other`, and tells whether there were new ones.
pub(crate) fn or_words(words: &mut [u64], other: &[u64]) -> bool
    requires { length words.old ≡ length other.now }
    ensures all { (q : ℕ) → bit_of words.new q ≡ (bit_of words.old q || bit_of other.now q) }
    ensures added { IsTrue result ↔ ((q : ℕ) × ((bit_of other.now q ≡ true) × (bit_of words.old q ≡ false))) }
{
    let mut added = false;
    'words: for i in 0..words.len() {
        let both = words[i] | other[i];
        added |= both != words[i];
        words[i] = both;
    }
    added
}

// Takes the bits of `other` away.
pub(crate) fn minus_words(words: &mut [u64], other: &[u64])
    requires { length words.old ≡ length other.now }
    ensures all { (q : ℕ) → bit_of words.new q ≡ (bit_of words.old q && not (bit_of other.now q)) }
{
    'words: for i in 0..words.len() {
        words[i] &= !other[i];
    }
}

pub(crate) fn same_words(words: &[u64], other: &[u64]) -> bool
    requires { length words.now ≡ length other.now }
    ensures { IsTrue result ↔ ((q : ℕ) → bit_of words.now q ≡ bit_of other.now q) }
{
    'words: for i in 0..words.len() {
        if words[i] != other[i] {
            return false;
        }
    }
    true
}
