// A value of a map's field: bare, quoted or bracketed; its meaning, and how it is written.
ghost use Rattle.std.specs.Prelude.{◌≡◌, false, [], ◌∷◌, ◌+◌, length, drop};
ghost use Rattle.values.specs.Bytes.{any, before, same};
ghost use Rattle.values.specs.Value.{is_escapable, is_stop, quoted_text, read_bare, read_values, meaning, spelling, write_value};
ghost use Rattle.values.specs.Places.{closing_at, escaped_from, value_placed};
ghost use Rattle.values.specs.Written.{Puts};

use crate::cursor::{Cursor, is_escapable};
use crate::sink::Sink;
use crate::{bytes, sink};

// A text without its quotes. Where it is handed on at each field it is copied field by field: a copy of the whole drags its padding along, and
// reading that back stalls the processor.
#[derive(Clone, Copy)]
pub struct Text {
    pub start: usize,
    pub end: usize,
    pub quoted: bool,
}

fn is_stop(b: u8) -> bool
    ensures { result ≡ is_stop b }
{
    b == b',' || b == b'>'
}

pub fn find_stop(s: &[u8], start: usize) -> usize
    ensures { result ≡ start + length (before is_stop (drop start s.now)) }
{
    bytes::find_by(s, start, |b| is_stop(b))
}

// Whether a quote or a backslash is among the bytes: no early end, so that many are looked at at once.
// Kept: with `contains` for each of the two, blocks of 16 bytes are passed at less than half the speed.
fn has_escapable(s: &[u8]) -> bool
    ensures { result ≡ any is_escapable s.now }
{
    let mut found = false;
    for b in s {
        found |= is_escapable(*b);
    }
    found
}

// Past blocks of 16 bytes that have neither: the quote that ends the text is the first from there on.
// Kept: a walk by blocks; a `for` over `chunks_exact` would count the place beside it all the same.
fn skip_plain(s: &[u8], at: usize) -> usize
    ensures { closing_at result (quoted_text false (drop result s.now)) ≡ closing_at at (quoted_text false (drop at s.now)) }
{
    let mut i = at;
    while 16 <= s.len().saturating_sub(i) && !has_escapable(&s[i..i + 16]) {
        i += 16;
    }
    i
}

// The place of the `"` that ends a quoted value, and past it.
fn find_closing(s: &[u8], start: usize) -> Option<(usize, Cursor)>
    ensures { result ≡ closing_at start (quoted_text false (drop start s.now)) }
{
    let mut escaped = false;
    for at in skip_plain(s, start)..s.len() {
        let b = s[at];
        if escaped {
            if !is_escapable(b) {
                return None;
            }
            escaped = false;
        } else {
            if b == b'"' {
                return Some((at, Cursor { at: at + 1 }));
            }
            escaped = b == b'\\';
        }
    }
    None
}

impl Cursor {
    pub fn parse_raw_string(self, s: &[u8]) -> Option<(Text, Cursor)>
        ensures { result ≡ value_placed self.at (read_bare (drop self.at s.now)) }
    {
        let start = self.at;
        let end = find_stop(s, start);
        let text = Text {
            start,
            end,
            quoted: false,
        };
        Some((text, Cursor { at: end }))
    }

    // From the value's first `"` on.
    pub fn parse_escaped_string(self, s: &[u8]) -> Option<(Text, Cursor)>
        ensures { result ≡ escaped_from self.at (drop self.at s.now) }
    {
        let Some((b, c)) = self.next_byte(s) else {
            return None;
        };
        if b != b'"' {
            return None;
        }
        let start = c.at;
        let Some((end, next)) = find_closing(s, start) else {
            return None;
        };
        let text = Text {
            start,
            end,
            quoted: true,
        };
        Some((text, next))
    }

    // META's Values: through the first `]`, where it begins `[` and has one.
    pub fn parse_values(self, s: &[u8]) -> Option<(Text, Cursor)>
        ensures { result ≡ value_placed self.at (read_values (drop self.at s.now)) }
    {
        let start = self.at;
        if s.len() <= start || s[start] != b'[' {
            return self.parse_raw_string(s);
        }
        let close = bytes::find(s, start, b']');
        if s.len() <= close {
            return self.parse_raw_string(s);
        }
        let end = close + 1;
        let text = Text {
            start,
            end,
            quoted: false,
        };
        Some((text, Cursor { at: end }))
    }
}

// Whether two texts mean the same; aq and bq say which of them stands between quotes.
pub fn same_meaning(a: &[u8], aq: bool, b: &[u8], bq: bool) -> bool
    ensures { result ≡ same (meaning aq a.now) (meaning bq b.now) }
{
    if !aq && !bq {
        return bytes::same(a, b);
    }
    let mut i = Cursor { at: 0 };
    let mut j = Cursor { at: 0 };
    while let Some((x, m)) = i.next_unescaped(a, aq) {
        let Some((y, n)) = j.next_unescaped(b, bq) else {
            return false;
        };
        if x != y {
            return false;
        }
        i = m;
        j = n;
    }
    j.next_unescaped(b, bq).is_none()
}

// One byte of a meaning, as it stands between quotes or bare.
fn put_spelled(out: &mut [u8], given: &[u8], at: Sink, b: u8, quote: bool) -> Sink
    ensures { Puts given.now out.old at (spelling quote (b ∷ [])) result out.new }
{
    if quote && is_escapable(b) {
        let next = sink::put_byte(out, given, at, b'\\');
        return sink::put_byte(out, given, next, b);
    }
    sink::put_byte(out, given, at, b)
}

// The meaning of a text, as it stands between quotes or bare.
fn put_meaning(out: &mut [u8], given: &[u8], at: Sink, s: &[u8], quoted: bool, quote: bool) -> Sink
    ensures { Puts given.now out.old at (spelling quote (meaning quoted s.now)) result out.new }
{
    let mut next = at;
    let mut c = Cursor { at: 0 };
    while let Some((b, d)) = c.next_unescaped(s, quoted) {
        next = put_spelled(out, given, next, b, quote);
        c = d;
    }
    next
}

// A value with the meaning of the text s, quoted or bare.
pub fn put_value(
    out: &mut [u8],
    given: &[u8],
    at: Sink,
    s: &[u8],
    quoted: bool,
    quote: bool,
) -> Sink
    ensures { Puts given.now out.old at (write_value quote (meaning quoted s.now)) result out.new }
{
    if !quote {
        return put_meaning(out, given, at, s, quoted, quote);
    }
    let text = sink::put_byte(out, given, at, b'"');
    let end = put_meaning(out, given, text, s, quoted, quote);
    sink::put_byte(out, given, end, b'"')
}
