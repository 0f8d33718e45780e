// A place in a slice, by value: each step hands the moved cursor back with its answer.
ghost use Rattle.std.specs.Prelude.{◌≡◌};
ghost use Rattle.values.specs.Value.{is_escapable};
ghost use Rattle.values.specs.Places.{byte_at, unescaped_at};

#[derive(Clone, Copy)]
pub struct Cursor {
    pub at: usize,
}

// What a backslash may stand before between quotes.
pub fn is_escapable(b: u8) -> bool
    ensures { result ≡ is_escapable b }
{
    b == b'"' || b == b'\\'
}

impl Cursor {
    pub fn next_byte(self, s: &[u8]) -> Option<(u8, Cursor)>
        ensures { result ≡ byte_at s.now self.at }
    {
        let at = self.at;
        if at < s.len() {
            Some((s[at], Cursor { at: at + 1 }))
        } else {
            None
        }
    }

    // The next byte of the text's meaning, which stands between quotes or bare.
    pub fn next_unescaped(self, s: &[u8], quoted: bool) -> Option<(u8, Cursor)>
        ensures { result ≡ unescaped_at quoted s.now self.at }
    {
        let Some((b, next)) = self.next_byte(s) else {
            return None;
        };
        if !quoted || b != b'\\' {
            return Some((b, next));
        }
        let Some((e, after)) = next.next_byte(s) else {
            return Some((b, next));
        };
        if is_escapable(e) {
            return Some((e, after));
        }
        Some((b, next))
    }
}
