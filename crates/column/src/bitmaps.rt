ghost use Rattle.std.specs.Prelude.{◌≡◌, ℕ, ◌+◌, ◌*◌, ◌/◌, ◌%◌, ◌<◌, ◌≤◌, true, false, length, MatchOption};
ghost use Rattle.ternary.specs.Bits.{bit};
ghost use Rattle.column.specs.Bitmaps.{agrees, first_word, hit, Put, Kept, Marked};

use ternary::entry::Entry;

// The words of a block of 64 entries: two for each of the 16 bits of the code, then two for each of the 8 of the byte.
pub(crate) const BLOCK: usize = 48;

// Where the words of the byte begin in a block.
const BYTE: usize = 32;

// The first of the entries before `count` that accepts the code and the byte.
// If the first set bit stands at `count` or later, no entry before it accepts them, and what that bit says does not matter.
pub(crate) fn find(words: &[u64], count: usize, code: u16, byte: u8) -> Option<usize>
    requires { count ≤ 64 * (length words.now / 48) }
    ensures { MatchOption result ((j : ℕ) → j < count → hit words.now code byte j ≡ false)
        (λ i. (i < count) × (hit words.now code byte i ≡ true) × ((j : ℕ) → j < i → hit words.now code byte j ≡ false)) }
{
    let blocks = count.div_ceil(64);
    // The number of a block gives its words and the places of its entries.
    for block in 0..blocks {
        if let Some(place) = lowest(join(words, block, code, byte)) {
            let index = 64 * block + place as usize;
            return if index < count { Some(index) } else { None };
        }
    }
    None
}

// Which of the 64 entries of a block accept the code and the byte: one bitmap for each of the 24 key bits, joined by "and".
fn join(words: &[u64], block: usize, code: u16, byte: u8) -> u64
    requires { 48 * block + 48 ≤ length words.now }
    ensures { (p : ℕ) → p < 64 → bit result p ≡ hit words.now code byte (64 * block + p) }
{
    let base = BLOCK * block;
    let accepting = join_field(words, base, code, 16);
    // Most blocks have no entry for the code: the words of the byte need not be read there.
    if accepting == 0 {
        return 0;
    }
    accepting & join_field(words, base + BYTE, byte as u16, 8)
}

// Which of the 64 entries of a block accept the lowest bits of a number in one field: one bitmap for each bit, joined by "and".
fn join_field(words: &[u64], base: usize, number: u16, width: usize) -> u64
    requires within { base + 2 * width ≤ length words.now }
    requires width_bound { width ≤ 16 }
    ensures { (p : ℕ) → p < 64 → bit result p ≡ agrees words.now base p number width }
{
    let mut joined = u64::MAX;
    // The number of a key bit gives the bit of the number and the place of its two words.
    for k in 0..width {
        let value = (number >> k) & 1;
        joined &= words[base + 2 * k + value as usize];
    }
    joined
}

// The lowest set bit of a word.
fn lowest(word: u64) -> Option<u32>
    ensures { MatchOption result ((p : ℕ) → p < 64 → bit word p ≡ false)
        (λ place. (place < 64) × (bit word place ≡ true) × ((p : ℕ) → p < place → bit word p ≡ false)) }
{
    let place = word.trailing_zeros();
    if place < 64 { Some(place) } else { None }
}

// Writes which bit values the entry at `index` accepts, for each bit of the code and of the byte.
pub(crate) fn write_entry(words: &mut [u64], index: usize, entry: &Entry)
    requires { first_word index + 48 ≤ length words.old }
    ensures kept { Kept words.old words.new (first_word index) 24 (index % 64) }
    ensures code { Marked words.new (first_word index) 16 (index % 64) entry.now.code_value entry.now.code_mask }
    ensures byte { Marked words.new (first_word index + 32) 8 (index % 64) entry.now.byte_value entry.now.byte_mask }
{
    let base = BLOCK * (index / 64);
    let place = (index % 64) as u32;
    write_field(
        words,
        base,
        place,
        entry.code_value(),
        entry.code_mask(),
        16,
    );
    let value = entry.byte_value() as u16;
    let mask = entry.byte_mask() as u16;
    write_field(words, base + BYTE, place, value, mask, 8);
}

// Writes which bit values an entry accepts, for each bit of one field.
fn write_field(words: &mut [u64], base: usize, place: u32, value: u16, mask: u16, width: usize)
    requires within { base + 2 * width ≤ length words.old }
    requires place_bound { place < 64 }
    requires width_bound { width ≤ 16 }
    ensures kept { Kept words.old words.new base width place }
    ensures marked { Marked words.new base width place value mask }
{
    // The number of a key bit gives the bit of the value and the place of its two words.
    for k in 0..width {
        let v = (value >> k) & 1;
        let m = (mask >> k) & 1;
        put(words, base + 2 * k, place, v == 0);
        put(words, base + 2 * k + 1, place, v == m);
    }
}

// Sets or clears one bit of a word.
fn put(words: &mut [u64], index: usize, place: u32, on: bool)
    requires within { index < length words.old }
    requires place_bound { place < 64 }
    ensures { Put words.old words.new index place on }
{
    let one = 1u64 << place;
    if on {
        words[index] |= one;
    } else {
        words[index] &= !one;
    }
}
