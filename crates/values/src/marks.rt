// Which texts may have been met: where one of the bits for a text's hash is not set, it was not met, and need not be looked for.
ghost use Rattle.std.specs.Prelude.{◌≡◌};
ghost use Rattle.values.specs.Marks.{mark_word, mark_bits, is_set, set_all, is_met, meet, is_noted, note};

use crate::{bits, hash};

// With so many words a text has bits in two of them: there are many texts then, and a search in vain is long.
const MANY: usize = 65536;

// The word for a hash, by its lower half: a product, where a remainder would take a division.
fn word_of(words: usize, hash: u64) -> usize
    ensures { result ≡ mark_word words hash }
{
    let low = hash % 0x1_0000_0000;
    if words < 0xFFFF_FFFF {
        return (low * (words as u64) / 0x1_0000_0000) as usize;
    }
    (low * 0xFFFF_FFFF / 0x1_0000_0000) as usize
}

// Its bits in that word, by its upper half.
fn bits_of(hash: u64) -> u64
    ensures { result ≡ mark_bits hash }
{
    bits::bit_of(hash / 0x1_0000_0000)
        | bits::bit_of(hash / 0x40_0000_0000)
        | bits::bit_of(hash / 0x1000_0000_0000)
        | bits::bit_of(hash / 0x4_0000_0000_0000)
}

// Whether the bits for a hash are set.
fn is_set(marks: &[u64], hash: u64) -> bool
    ensures { result ≡ is_set marks.now hash }
{
    if marks.len() == 0 {
        return true;
    }
    let at = word_of(marks.len(), hash);
    let bits = bits_of(hash);
    marks[at] & bits == bits
}

// The same, and they are set.
fn set_all(marks: &mut [u64], hash: u64) -> bool
    ensures were { result ≡ is_set marks.old hash }
    ensures marks { marks.new ≡ set_all marks.old hash }
{
    if marks.len() == 0 {
        return true;
    }
    let at = word_of(marks.len(), hash);
    let bits = bits_of(hash);
    let word = marks[at];
    marks[at] = word | bits;
    word & bits == bits
}

// Whether a text of this hash may have been met.
pub fn is_met(marks: &[u64], hash: u64) -> bool
    ensures { result ≡ is_met marks.now hash }
{
    let end = hash::wide_step(hash, 0);
    is_set(marks, end) && (marks.len() < MANY || is_set(marks, hash::wide_step(end, 1)))
}

// The same, and the text is marked.
pub fn meet_hash(marks: &mut [u64], hash: u64) -> bool
    ensures met { result ≡ is_met marks.old hash }
    ensures marks { marks.new ≡ meet marks.old hash }
{
    let end = hash::wide_step(hash, 0);
    if marks.len() < MANY {
        return set_all(marks, end);
    }
    let again = hash::wide_step(end, 1);
    let second = is_set(marks, again);
    let first = set_all(marks, end);
    set_all(marks, again);
    first & second
}

// Whether a number may have been noted: one bit is cheaper to look at than four, where few numbers are noted.
pub fn is_noted(marks: &[u64], n: u64) -> bool
    ensures { result ≡ is_noted marks.now n }
{
    if marks.len() == 0 {
        return true;
    }
    let at = word_of(marks.len(), n);
    let bit = bits::bit_of(n / 0x1_0000_0000);
    marks[at] & bit == bit
}

pub fn note(marks: &mut [u64], n: u64)
    ensures { marks.new ≡ note marks.old n }
{
    if marks.len() == 0 {
        return;
    }
    let at = word_of(marks.len(), n);
    marks[at] |= bits::bit_of(n / 0x1_0000_0000);
}
