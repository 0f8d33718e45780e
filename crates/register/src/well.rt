// A well's ID and a constant, as they are spelled.
ghost use Rattle.std.specs.Prelude.{◌≡◌};
ghost use Rattle.register.specs.Cells.{in_range, hundredths};
ghost use Rattle.register.specs.Wells.{digit_of, WellTold, constant_read};

// A number of hundredths that a constant may have.
fn in_range(n: u64) -> Option<u64>
    ensures { result ≡ constant_read (in_range n) }
{
    match n {
        50..=200 => Some(n),
        _ => None,
    }
}

// The digit that a byte spells; 10: none.
fn digit(b: u8) -> u64
    ensures { result ≡ digit_of b }
{
    match b {
        b'0'..=b'9' => u64::from(b - b'0'),
        _ => 10,
    }
}

// The well that an ID names, W01 to W40; 0: none of them. An ID between quotes is looked at as it stands, since no well's has an escape.
pub fn well_of(id: &[u8]) -> usize
    ensures { WellTold id.now result }
{
    let [b'W', a, b] = id else {
        return 0;
    };
    let tens = digit(*a);
    let ones = digit(*b);
    if 9 < tens || 9 < ones {
        return 0;
    }
    let well = tens * 10 + ones;
    if 40 < well {
        return 0;
    }
    well as usize
}

// One digit, a point and two digits, from 0.50 through 2.00; an escape makes none either.
// A constant in whole hundredths.
pub fn hundredths(k: &[u8]) -> Option<u64>
    ensures { result ≡ constant_read (hundredths k.now) }
{
    let [a, b'.', b, c] = k else {
        return None;
    };
    let ones = digit(*a);
    let tenths = digit(*b);
    let last = digit(*c);
    if 9 < ones || 9 < tenths || 9 < last {
        return None;
    }
    in_range(ones * 100 + tenths * 10 + last)
}
