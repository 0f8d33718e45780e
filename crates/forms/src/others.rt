// The fields of a map that are no known ones, as they stood.
ghost use Rattle.values.specs.Value.{meaning};
ghost use Rattle.values.specs.Written.{Puts};
ghost use Rattle.forms.specs.Forms.{fields_in, other_text, others_text};

use crate::field;
use records::key::MapContext;
use values::cursor::Cursor;
use values::sink::Sink;
use values::{bytes, sink};

// A `,` and the field, unless it is a known one.
fn put_other(
    out: &mut [u8],
    given: &[u8],
    at: Sink,
    map: MapContext,
    name: &[u8],
    value: &[u8],
    quoted: bool,
) -> Sink
    ensures { Puts given.now out.old at (other_text map name.now (meaning quoted value.now)) result out.new }
{
    let key = map.key;
    let tag = key.tag(map.version, name);
    if tag.is_known() {
        return at;
    }
    let next = sink::put_byte(out, given, at, b',');
    field::put_field(out, given, next, name, value, quoted, map.brackets)
}

// Of the fields that stand past the map's `<`, those that are no known ones, each after a `,`.
pub fn put_others(out: &mut [u8], given: &[u8], at: Sink, s: &[u8], map: MapContext) -> Sink
    ensures { Puts given.now out.old at (others_text map (fields_in map s.now)) result out.new }
{
    let mut next = at;
    let mut c = Cursor { at: map.start };
    while let Some((equals, text, past)) = c.split_field(s, map.brackets) {
        let name = bytes::part(s, c.at, equals);
        let value = bytes::part(s, text.start, text.end);
        next = put_other(out, given, next, map, name, value, text.quoted);
        let Some(d) = past.consume_separator(s) else {
            return next;
        };
        c = d;
    }
    next
}
