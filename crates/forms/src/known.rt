// The known fields of a map that stand after its ID, in the table's order.
ghost use Rattle.values.specs.Written.{Puts};
ghost use Rattle.rules.specs.Known.{INFO, FILTER, contig};
ghost use Rattle.records.specs.Tags.{after_id};
ghost use Rattle.forms.specs.Forms.{fields_in, listed_fields, known_texts, PutsKnown};

use crate::field;
use records::field as fields;
use records::key::{MapContext, MapKey};
use values::sink::Sink;
use values::{bytes, sink};

// A `,` and the field of this name, if there is one; `number`: an integer is written as its number.
fn put_known(
    out: &mut [u8],
    given: &[u8],
    at: Sink,
    s: &[u8],
    map: MapContext,
    name: &[u8],
    number: bool,
) -> Sink
    ensures { PutsKnown map.brackets (fields_in map s.now) name.now number given.now out.old at result out.new }
{
    let Some(text) = fields::find_field(s, map.start, map.brackets, name) else {
        return at;
    };
    let next = sink::put_byte(out, given, at, b',');
    let value = bytes::part(s, text.start, text.end);
    if number {
        return field::put_number(out, given, next, name, value, text.quoted, map.brackets);
    }
    field::put_field(out, given, next, name, value, text.quoted, map.brackets)
}

// INFO and FORMAT.
fn put_typed(out: &mut [u8], given: &[u8], at: Sink, s: &[u8], map: MapContext) -> Sink
    ensures { Puts given.now out.old at (listed_fields map.brackets (fields_in map s.now) (after_id INFO)) result out.new }
{
    let a = put_known(out, given, at, s, map, b"Number", true);
    let b = put_known(out, given, a, s, map, b"Type", false);
    let c = put_known(out, given, b, s, map, b"Description", false);
    put_known(out, given, c, s, map, b"IDX", true)
}

fn put_filter(out: &mut [u8], given: &[u8], at: Sink, s: &[u8], map: MapContext) -> Sink
    ensures { Puts given.now out.old at (listed_fields map.brackets (fields_in map s.now) (after_id FILTER)) result out.new }
{
    let next = put_known(out, given, at, s, map, b"Description", false);
    put_known(out, given, next, s, map, b"IDX", true)
}

fn put_contig(out: &mut [u8], given: &[u8], at: Sink, s: &[u8], map: MapContext) -> Sink
    ensures { Puts given.now out.old at (listed_fields map.brackets (fields_in map s.now) (after_id contig)) result out.new }
{
    let a = put_known(out, given, at, s, map, b"length", true);
    let b = put_known(out, given, a, s, map, b"md5", false);
    let c = put_known(out, given, b, s, map, b"URL", false);
    put_known(out, given, c, s, map, b"IDX", true)
}

// The known fields but the ID, each after a `,`.
pub fn put_known_fields(out: &mut [u8], given: &[u8], at: Sink, s: &[u8], map: MapContext) -> Sink
    ensures { Puts given.now out.old at (known_texts map s.now) result out.new }
{
    match map.key {
        MapKey::Info | MapKey::Format => put_typed(out, given, at, s, map),
        MapKey::Filter => put_filter(out, given, at, s, map),
        MapKey::AlternativeAllele => put_known(out, given, at, s, map, b"Description", false),
        MapKey::Contig => put_contig(out, given, at, s, map),
        MapKey::Meta | MapKey::Pedigree | MapKey::Other => at,
    }
}
