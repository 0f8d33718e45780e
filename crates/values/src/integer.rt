// Integers as a header spells them.
ghost use Rattle.std.specs.Prelude.{◌≡◌};
ghost use Rattle.values.specs.Integer.{is_plain, unsigned_read, integer_read, u32_read, u64_read};

// No sign, and no leading zero unless the number is the one digit 0.
fn is_plain(s: &[u8]) -> bool
    ensures { result ≡ is_plain s.now }
{
    if s.len() == 0 {
        return true;
    }
    match s[0] {
        b'+' => false,
        b'0' => s.len() == 1,
        _ => true,
    }
}

// The number of a run of digits, where it is at most `bound`; `plain`: how the whole integer was spelled.
fn unsigned(s: &[u8], bound: u64, plain: bool) -> Option<(u64, bool)>
    ensures { result ≡ unsigned_read bound plain s.now }
{
    if s.len() == 0 {
        return None;
    }
    let mut n: u64 = 0;
    for b in s {
        let b = *b;
        if !b.is_ascii_digit() {
            return None;
        }
        let d = (b - b'0') as u64;
        if bound < d {
            return None;
        }
        if (bound - d) / 10 < n {
            return None;
        }
        n = n * 10 + d;
    }
    Some((n, plain))
}

// The same with a `+` in front, where `sign` allows one.
pub fn integer(s: &[u8], sign: bool, bound: u64) -> Option<(u64, bool)>
    ensures { result ≡ integer_read sign bound s.now }
{
    let plain = is_plain(s);
    if sign && 0 < s.len() && s[0] == b'+' {
        return unsigned(&s[1..], bound, plain);
    }
    unsigned(s, bound, plain)
}

// The number, and whether it was plainly spelled.
pub fn parse_u64(s: &[u8]) -> Option<(u64, bool)>
    ensures { result ≡ u64_read s.now }
{
    integer(s, true, 0xFFFF_FFFF_FFFF_FFFF)
}

pub fn parse_u32(s: &[u8]) -> Option<(u64, bool)>
    ensures { result ≡ u32_read s.now }
{
    integer(s, false, 0xFFFF_FFFF)
}
