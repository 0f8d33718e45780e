// One field of the house form.
ghost use Rattle.std.specs.Prelude.{[], ◌∷◌, ◌++◌};
ghost use Rattle.values.specs.Value.{meaning};
ghost use Rattle.values.specs.Field.{written_field};
ghost use Rattle.values.specs.Written.{Puts};
ghost use Rattle.rules.specs.House.{name_of_tag};
ghost use Rattle.records.specs.Fields.{meaning_in};
ghost use Rattle.forms.specs.Forms.{field_by, PutsNumber};

use crate::quoting;
use values::sink::Sink;
use values::string::Text;
use values::{bytes, integer, sink, string};

fn put_key(out: &mut [u8], given: &[u8], at: Sink, key: &[u8]) -> Sink
    ensures { Puts given.now out.old at (key.now ++ 61 ∷ []) result out.new }
{
    let next = sink::put_bytes(out, given, at, key);
    sink::put_byte(out, given, next, b'=')
}

// The text s as the value of a field; `quoted`: it stands between quotes. `meta`: the map is a META, from 4.3.
pub fn put_field(
    out: &mut [u8],
    given: &[u8],
    at: Sink,
    key: &[u8],
    s: &[u8],
    quoted: bool,
    meta: bool,
) -> Sink
    ensures { Puts given.now out.old at (written_field (field_by meta key.now (meaning quoted s.now))) result out.new }
{
    let quote = quoting::needs_quotes(key, s, quoted, meta);
    let next = put_key(out, given, at, key);
    string::put_value(out, given, next, s, quoted, quote)
}

// The same, but an integer as its number.
pub fn put_number(
    out: &mut [u8],
    given: &[u8],
    at: Sink,
    key: &[u8],
    s: &[u8],
    quoted: bool,
    meta: bool,
) -> Sink
    ensures { PutsNumber meta key.now s.now quoted given.now out.old at result out.new }
{
    let Some((n, _)) = integer::parse_u64(s) else {
        return put_field(out, given, at, key, s, quoted, meta);
    };
    let next = put_key(out, given, at, key);
    sink::put_decimal(out, given, next, n)
}

// The ID, under the name that stands for it.
pub fn put_id(
    out: &mut [u8],
    given: &[u8],
    at: Sink,
    s: &[u8],
    id: Text,
    tag: u8,
    meta: bool,
) -> Sink
    ensures { Puts given.now out.old at (written_field (field_by meta (name_of_tag tag) (meaning_in s.now id))) result out.new }
{
    let value = bytes::part(s, id.start, id.end);
    if tag == 0 {
        return put_field(out, given, at, b"ID", value, id.quoted, meta);
    }
    if tag == 1 {
        return put_field(out, given, at, b"Child", value, id.quoted, meta);
    }
    put_field(out, given, at, b"Derived", value, id.quoted, meta)
}
