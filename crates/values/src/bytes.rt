// Runs of bytes: where one stands, and whether two are equal.
ghost use Rattle.std.specs.Prelude.{◌≡◌, ℕ, Bool, ◌+◌, ◌-◌, length, drop, take};
ghost use Rattle.values.specs.Bytes.{Tells, is, any, before, starts, same};

// The place of the first byte from `start` on that passes the test, or the end. Two bytes in a turn: with one, the compiler counts in this loop
// what loops after it start from.
// Kept: tried as a `for` over the places, 36 % slower to find a `,`; as `position`, 90 % slower to find a key's end.
pub(crate) fn find_by<F: Fn(u8) -> bool>(s: &[u8], start: usize, passes: F) -> usize
    requires { F.IsAlwaysCallable passes }
    ensures { (t : ℕ → Bool) → Tells (F.post passes) t → result ≡ start + length (before t (drop start s.now)) }
{
    let mut i = start;
    while i < s.len() {
        if passes(s[i]) {
            return i;
        }
        i += 1;
        if s.len() <= i {
            return i;
        }
        if passes(s[i]) {
            return i;
        }
        i += 1;
    }
    i
}

// The place of the first x from `start` on, or the end.
pub fn find(s: &[u8], start: usize, x: u8) -> usize
    ensures { result ≡ start + length (before (is x) (drop start s.now)) }
{
    find_by(s, start, |b| b == x)
}

// Whether x is among the bytes; each is looked at, so that a compiler can take them all at once.
// Kept: tried as `contains`, 22 % slower for blocks of eight bytes.
pub fn has(s: &[u8], x: u8) -> bool
    ensures { result ≡ any (is x) s.now }
{
    let mut found = false;
    for b in s {
        found |= *b == x;
    }
    found
}

pub fn starts_with(s: &[u8], p: &[u8]) -> bool
    ensures { result ≡ starts p.now s.now }
{
    s.starts_with(p)
}

// Byte by byte from the last one on, since names of one kind mostly differ there.
// Kept: tried as `a == b`, 37 to 58 % slower for names of 6 to 16 bytes that differ in the last one.
pub fn same(a: &[u8], b: &[u8]) -> bool
    ensures { result ≡ same a.now b.now }
{
    if a.len() != b.len() {
        return false;
    }
    for i in (0..a.len()).rev() {
        if a[i] != b[i] {
            return false;
        }
    }
    true
}

// At most n bytes from `start` on.
pub fn piece(s: &[u8], start: usize, n: usize) -> &[u8]
    ensures { result.now ≡ take n (drop start s.now) }
{
    if s.len() <= start {
        return &s[..0];
    }
    if s.len() - start < n {
        return &s[start..];
    }
    &s[start..start + n]
}

// The bytes from `start` to `end`, as far as there are any.
pub fn part(s: &[u8], start: usize, end: usize) -> &[u8]
    ensures { result.now ≡ take (end - start) (drop start s.now) }
{
    if s.len() <= start {
        return &s[..0];
    }
    if end <= start {
        return &s[..0];
    }
    if s.len() < end {
        return &s[start..];
    }
    &s[start..end]
}
