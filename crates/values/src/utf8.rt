// Whether bytes are UTF-8.
ghost use Rattle.std.specs.Prelude.{◌≤◌, ◌<◌, ◌≡◌, length};
ghost use Rattle.values.specs.Utf8.{is_utf8, is_ascii};
ghost use Rattle.values.specs.Fitting.{is_due, is_barred, goes_on, is_first, fits, all_fit, byte_before, part_fits, is_cut};

// Whether no byte is above 127. Every byte is looked at, with no way out before the end, so that a compiler can take many at a time.
pub fn is_ascii(s: &[u8]) -> bool
    ensures { result ≡ is_ascii s.now }
{
    let mut highest: u8 = 0;
    for b in s {
        highest = highest.max(*b);
    }
    highest < 0x80
}

fn is_due(third: u8, second: u8, nearest: u8) -> bool
    ensures { result ≡ is_due third second nearest }
{
    (0xF0 <= third) | ((0xE0 <= second) | (0xC0 <= nearest))
}

fn is_barred(first: u8, b: u8) -> bool
    ensures { result ≡ is_barred first b }
{
    let overlong = ((first == 0xE0) & (b < 0xA0)) | ((first == 0xF0) & (b < 0x90));
    let surrogate = (first == 0xED) & (0x9F < b);
    let past_last = (first == 0xF4) & (0x8F < b);
    overlong | (surrogate | past_last)
}

fn goes_on(nearest: u8, b: u8) -> bool
    ensures { result ≡ goes_on nearest b }
{
    ((0x80 <= b) & (b <= 0xBF)) & !is_barred(nearest, b)
}

fn is_first(b: u8) -> bool
    ensures { result ≡ is_first b }
{
    (b < 0x80) | ((0xC2 <= b) & (b <= 0xF4))
}

fn fits(third: u8, second: u8, nearest: u8, b: u8) -> bool
    ensures { result ≡ fits third second nearest b }
{
    let due = is_due(third, second, nearest);
    (due & goes_on(nearest, b)) | (!due & is_first(b))
}

// Every byte is looked at, as in `is_ascii`, and none waits for the answer on another.
fn all_fit(s: &[u8], mut third: u8, mut second: u8, mut nearest: u8) -> bool
    ensures { result ≡ all_fit third second nearest s.now }
{
    let mut fit = true;
    for b in s {
        fit &= fits(third, second, nearest, *b);
        third = second;
        second = nearest;
        nearest = *b;
    }
    fit
}

fn byte_before(s: &[u8], i: usize, k: usize) -> u8
    requires i_in_bounds { i ≤ length s.now }
    requires k_nonzero { 0 < k }
    ensures { result ≡ byte_before s.now i k }
{
    if i < k {
        return 0;
    }
    s[i - k]
}

// ASCII bytes are passed together where no character is open before them.
fn part_fits(s: &[u8], from: usize, to: usize) -> bool
    requires from_le_to { from ≤ to }
    requires to_in_bounds { to ≤ length s.now }
    ensures { result ≡ part_fits s.now from to }
{
    let third = byte_before(s, from, 3);
    let second = byte_before(s, from, 2);
    let nearest = byte_before(s, from, 1);
    if !is_due(third, second, nearest) & is_ascii(&s[from..to]) {
        return true;
    }
    all_fit(&s[from..to], third, second, nearest)
}

fn is_cut(s: &[u8]) -> bool
    ensures { result ≡ is_cut s.now }
{
    let n = s.len();
    is_due(
        byte_before(s, n, 3),
        byte_before(s, n, 2),
        byte_before(s, n, 1),
    )
}

// By blocks of 32 bytes, unless all is ASCII.
// Kept: each block is looked at with the three bytes before it, which `chunks` doesn't lend.
pub fn utf8(s: &[u8]) -> bool
    ensures { result ≡ is_utf8 s.now }
{
    if is_ascii(s) {
        return true;
    }
    let mut i: usize = 0;
    while 32 <= s.len() - i {
        let next = i + 32;
        if !part_fits(s, i, next) {
            return false;
        }
        i = next;
    }
    part_fits(s, i, s.len()) & !is_cut(s)
}
