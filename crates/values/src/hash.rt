// Hashes of a kind and of what a text means: 32-bit FNV-1a, and one of 64 bits.
ghost use Rattle.std.specs.Prelude.{◌≡◌};
ghost use Rattle.values.specs.Value.{meaning};
ghost use Rattle.values.specs.Hash.{wrapping_product, hash_byte, hash_of, wide_step, wide_from};

use crate::cursor::Cursor;

const OFFSET_BASIS: u32 = 2166136261;

const PRIME: u32 = 16777619;

// The product modulo 2^32.
fn wrapping_mul(a: u32, b: u32) -> u32
    ensures { result ≡ wrapping_product a b }
{
    ((a as u64) * (b as u64) % 0x1_0000_0000) as u32
}

fn hash_byte(hash: u32, b: u8) -> u32
    ensures { result ≡ hash_byte hash b }
{
    wrapping_mul(hash ^ (b as u32), PRIME)
}

// The kind is hashed as one byte before the bytes of the meaning.
pub fn hash_of(kind: u8, text: &[u8], quoted: bool) -> u32
    ensures { result ≡ hash_of kind (meaning quoted text.now) }
{
    let mut hash = hash_byte(OFFSET_BASIS, kind);
    let mut c = Cursor { at: 0 };
    while let Some((b, next)) = c.next_unescaped(text, quoted) {
        hash = hash_byte(hash, b);
        c = next;
    }
    hash
}

pub const WIDE_BASIS: u64 = 14695981039346656037;

const MULTIPLIER: u64 = 1791398085;

// A number more, and no overflow: the lower half of the bits is multiplied, the upper half carried.
pub fn wide_step(hash: u64, n: u16) -> u64
    ensures { result ≡ wide_step hash n }
{
    hash % 0x1_0000_0000 * MULTIPLIER + (hash / 0x1_0000_0000 + (n as u64))
}

// The hash goes on over what a text means, two bytes in a step.
pub fn wide_from(start: u64, text: &[u8], quoted: bool) -> u64
    ensures { result ≡ wide_from start (meaning quoted text.now) }
{
    let mut hash = start;
    let mut c = Cursor { at: 0 };
    while let Some((a, second)) = c.next_unescaped(text, quoted) {
        let Some((b, next)) = second.next_unescaped(text, quoted) else {
            return wide_step(hash, a as u16);
        };
        hash = wide_step(hash, (a as u16) * 256 + (b as u16));
        c = next;
    }
    hash
}
