// Whether the house form quotes a value, by its meaning.
ghost use Rattle.std.specs.Prelude.{◌≡◌, ◌&&◌};
ghost use Rattle.values.specs.Bytes.{ascii, begins, any, same};
ghost use Rattle.values.specs.Value.{is_stop, meaning};
ghost use Rattle.rules.specs.House.{closes};
ghost use Rattle.forms.specs.Forms.{quotes};

use values::bytes;
use values::cursor::Cursor;

fn is_stop(b: u8) -> bool
    ensures { result ≡ is_stop b }
{
    b == b',' || b == b'>'
}

fn begins_with(s: &[u8], quoted: bool, x: u8) -> bool
    ensures { result ≡ begins x (meaning quoted s.now) }
{
    let start = Cursor { at: 0 };
    let Some((b, _)) = start.next_unescaped(s, quoted) else {
        return false;
    };
    b == x
}

fn has_stop(s: &[u8], quoted: bool) -> bool
    ensures { result ≡ any is_stop (meaning quoted s.now) }
{
    let mut c = Cursor { at: 0 };
    while let Some((b, d)) = c.next_unescaped(s, quoted) {
        if is_stop(b) {
            return true;
        }
        c = d;
    }
    false
}

// Whether the first `]` is the last byte.
fn is_closed(s: &[u8], quoted: bool) -> bool
    ensures { result ≡ closes 93 (meaning quoted s.now) }
{
    let mut c = Cursor { at: 0 };
    while let Some((b, d)) = c.next_unescaped(s, quoted) {
        if b == b']' {
            return matches!(d.next_unescaped(s, quoted), None);
        }
        c = d;
    }
    false
}

// META's Values from 4.3, where it begins `[`.
fn is_values(key: &[u8], s: &[u8], quoted: bool, meta: bool) -> bool
    ensures { result ≡ (meta && (same key.now (ascii "Values") && begins 91 (meaning quoted s.now))) }
{
    meta && bytes::same(key, b"Values") && begins_with(s, quoted, b'[')
}

// `meta`: the map is a META, from 4.3.
pub fn needs_quotes(key: &[u8], s: &[u8], quoted: bool, meta: bool) -> bool
    ensures { result ≡ quotes meta key.now (meaning quoted s.now) }
{
    if bytes::same(key, b"Description") {
        return true;
    }
    if is_values(key, s, quoted, meta) {
        return !is_closed(s, quoted);
    }
    begins_with(s, quoted, b'"') || has_stop(s, quoted)
}
