// A whole line of the house form, from a line of a header.
ghost use Rattle.std.specs.Prelude.{◌≡◌, false};
ghost use Rattle.values.specs.Field.{written_field};
ghost use Rattle.values.specs.Written.{Puts, Wrote};
ghost use Rattle.rules.specs.Lines.{ends};
ghost use Rattle.records.specs.Formats.{version_of};
ghost use Rattle.forms.specs.Forms.{field_by};
ghost use Rattle.forms.specs.Lines.{fields_text, map_text, house_line, ending, WroteEnded};

use crate::{field, known, others};
use records::file_format::FileFormat;
use records::key::MapContext;
use records::record;
use records::record::Record;
use values::sink::Sink;
use values::string::Text;
use values::{bytes, sink};

// The place after a line's text, and the place after its ending: what does not fit is counted and not written.
#[derive(Clone, Copy)]
pub struct LineWritten {
    pub end: usize,
    pub next: Sink,
}

// The fields of a map, its ID first.
fn put_fields(
    out: &mut [u8],
    given: &[u8],
    at: Sink,
    s: &[u8],
    map: MapContext,
    id: Text,
    tag: u8,
) -> Sink
    ensures { Puts given.now out.old at (fields_text map s.now id tag) result out.new }
{
    let identified = field::put_id(out, given, at, s, id, tag, map.brackets);
    let listed = known::put_known_fields(out, given, identified, s, map);
    others::put_others(out, given, listed, s, map)
}

fn put_map(
    out: &mut [u8],
    given: &[u8],
    at: Sink,
    s: &[u8],
    map: MapContext,
    id: Text,
    tag: u8,
) -> Sink
    ensures { Puts given.now out.old at (map_text map s.now id tag) result out.new }
{
    let opened = sink::put_bytes(out, given, at, bytes::part(s, 0, map.start));
    let filled = put_fields(out, given, opened, s, map, id, tag);
    sink::put_byte(out, given, filled, b'>')
}

// A field of a map that is no META, with this value.
pub fn put_field(out: &mut [u8], at: usize, key: &[u8], value: &[u8]) -> usize
    ensures { Wrote out.old at (written_field (field_by false key.now value.now)) result out.new }
{
    let next = field::put_field(out, b"", Sink { at, differs: 0 }, key, value, false, false);
    next.at
}

// The line s, a map or a text, without an ending; of a fileformat line or a refused one nothing is written.
pub fn put_record(out: &mut [u8], given: &[u8], at: Sink, s: &[u8], version: FileFormat) -> Sink
    ensures { Puts given.now out.old at (house_line (version_of version) s.now) result out.new }
{
    match record::parse_record(s, version) {
        Ok(Record::FileFormat(_)) => at,
        Ok(Record::Map(m)) => {
            if s.len() <= m.value {
                return at;
            }
            let key = m.key;
            let map = key.context(version, m.value + 1);
            put_map(out, given, at, s, map, m.id, m.tag)
        }
        Ok(Record::Text(_)) => sink::put_bytes(out, given, at, s),
        Err(_) => at,
    }
}

// Whether the last byte is CR.
pub fn ends_with_cr(s: &[u8]) -> bool
    ensures { result ≡ ends 13 s.now }
{
    s.ends_with(b"\r")
}

// LF, or CR LF after a line whose own last byte is CR.
pub fn end_line(out: &mut [u8], given: &[u8], at: Sink, cr: bool) -> Sink
    ensures { Puts given.now out.old at (ending cr) result out.new }
{
    if cr {
        let next = sink::put_byte(out, given, at, 13);
        return sink::put_byte(out, given, next, 10);
    }
    sink::put_byte(out, given, at, 10)
}

// The same with its ending, which the last byte of s tells: a map's line ends in `>` as read and as written. Of a line of which
// put_record writes nothing, the ending alone.
pub fn put_line(
    out: &mut [u8],
    given: &[u8],
    at: Sink,
    s: &[u8],
    version: FileFormat,
) -> LineWritten
    ensures { WroteEnded given.now out.old at (house_line (version_of version) s.now) (ends 13 s.now) result out.new }
{
    let end = put_record(out, given, at, s, version);
    let cr = ends_with_cr(s);
    let next = end_line(out, given, end, cr);
    LineWritten { end: end.at, next }
}
