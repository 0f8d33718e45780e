// A field of a map: key, `=`, value.
ghost use Rattle.std.specs.Prelude.{◌≡◌, ◌+◌, length, drop};
ghost use Rattle.values.specs.Bytes.{before};
ghost use Rattle.values.specs.Field.{ends_key, may_bracket};
ghost use Rattle.values.specs.Places.{value_at, key_at, field_at, separator_at};

use crate::bytes;
use crate::cursor::Cursor;
use crate::string::Text;

fn ends_key(b: u8) -> bool
    ensures { result ≡ ends_key b }
{
    b == b'=' || b == b',' || b == b'<' || b == b'>' || b == b'"'
}

fn find_key_end(s: &[u8], start: usize) -> usize
    ensures { result ≡ start + length (before ends_key (drop start s.now)) }
{
    bytes::find_by(s, start, |b| ends_key(b))
}

// Only the value of Values may be bracketed.
fn may_bracket(key: &[u8], brackets: bool) -> bool
    ensures { result ≡ may_bracket brackets key.now }
{
    brackets && bytes::same(key, b"Values")
}

impl Cursor {
    // The place of the key's `=`, and past it.
    pub fn parse_key(self, s: &[u8]) -> Option<(usize, Cursor)>
        ensures { result ≡ key_at s.now self.at }
    {
        let start = self.at;
        let end = find_key_end(s, start);
        if end == start || s.len() <= end || s[end] != b'=' {
            return None;
        }
        Some((end, Cursor { at: end + 1 }))
    }

    // `brackets`: the value may be bracketed.
    pub fn parse_value(self, s: &[u8], brackets: bool) -> Option<(Text, Cursor)>
        ensures { result ≡ value_at brackets s.now self.at }
    {
        let Some((b, _)) = self.next_byte(s) else {
            return self.parse_raw_string(s);
        };
        if b == b'"' {
            return self.parse_escaped_string(s);
        }
        if brackets {
            return self.parse_values(s);
        }
        self.parse_raw_string(s)
    }

    // `brackets`: the map is a META, from 4.3, so that the value of Values may be bracketed.
    // The place of the key's `=`, the value's text, and past the value.
    pub fn split_field(self, s: &[u8], brackets: bool) -> Option<(usize, Text, Cursor)>
        ensures { result ≡ field_at brackets s.now self.at }
    {
        let start = self.at;
        let (equals, c) = self.parse_key(s)?;
        let bracketed = may_bracket(&s[start..equals], brackets);
        let (text, next) = c.parse_value(s, bracketed)?;
        Some((
            equals,
            Text {
                start: text.start,
                end: text.end,
                quoted: text.quoted,
            },
            Cursor { at: next.at },
        ))
    }

    // Past a `,`.
    pub fn consume_separator(self, s: &[u8]) -> Option<Cursor>
        ensures { result ≡ separator_at s.now self.at }
    {
        let at = self.at;
        if at < s.len() && s[at] == b',' {
            Some(Cursor { at: at + 1 })
        } else {
            None
        }
    }
}
