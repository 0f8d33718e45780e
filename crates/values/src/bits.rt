// Words with a bit for each of some numbers.
ghost use Rattle.std.specs.Prelude.{◌≡◌};
ghost use Rattle.values.specs.Marks.{mark_bit};
ghost use Rattle.values.specs.Bits.{bit_at, set_bit};

pub fn bit_of(n: u64) -> u64
    ensures { result ≡ mark_bit n }
{
    1 << (n % 64)
}

pub fn is_set(words: &[u64], n: usize) -> bool
    ensures { result ≡ bit_at words.now n }
{
    let at = n / 64;
    if words.len() <= at {
        return false;
    }
    let bit = bit_of(n as u64);
    words[at] & bit == bit
}

pub fn set(words: &mut [u64], n: usize)
    ensures { words.new ≡ set_bit words.old n }
{
    let at = n / 64;
    if words.len() <= at {
        return;
    }
    words[at] |= bit_of(n as u64);
}
