// The search for a field of a map.
ghost use Rattle.records.specs.Fields.{FindsField};

use values::bytes;
use values::cursor::Cursor;
use values::string::Text;

// The first field with this key among those that stand at `start`, parted by `,`. `brackets`: the map is a META, from 4.3.
pub fn find_field(s: &[u8], start: usize, brackets: bool, key: &[u8]) -> Option<Text>
    ensures { FindsField brackets s.now start key.now result }
{
    let mut c = Cursor { at: start };
    // Kept: no plainer: each field tells where the next one begins, and a walk has two ways to end.
    loop {
        let at = c.at;
        let Some((equals, text, next)) = c.split_field(s, brackets) else {
            return None;
        };
        if bytes::same(bytes::part(s, at, equals), key) {
            return Some(text);
        }
        let Some(d) = next.consume_separator(s) else {
            return None;
        };
        c = d;
    }
}
