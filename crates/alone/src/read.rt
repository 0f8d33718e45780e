// A line read alone under a version, as a record of a kind; and an entry's line so, which must have the counts that the entry tells.
ghost use Rattle.std.specs.Prelude.{◌≡◌};
ghost use Rattle.rules.specs.Shown.{tells};
ghost use Rattle.records.specs.Formats.{version_of};
ghost use Rattle.entries.specs.Values.{entry_of, limits_by};
ghost use Rattle.alone.specs.Alones.{plain_if, counts_in, ReadsAlone, ReadsEntry};

use entries::entry::Entry;
use entries::form::Form;
use entries::{kind, part};
use records::file_format::FileFormat;
use records::record;
use records::record::{MapRecord, Record};
use values::utf8;

// A map; or a record without fields, with the length of its key.
#[derive(Clone, Copy)]
pub enum Alone {
    Map(MapRecord),
    Plain(usize),
}

// A record without fields, if it is of the kind that is asked for.
fn plain(is_asked: bool, key_length: usize) -> Option<Alone>
    ensures { result ≡ plain_if is_asked key_length }
{
    if is_asked {
        return Some(Alone::Plain(key_length));
    }
    None
}

// None is refusal 29.
pub fn read_alone(l: &[u8], kind: u8, version: FileFormat) -> Option<Alone>
    ensures { ReadsAlone (version_of version) kind l.now result }
{
    if !utf8::utf8(l) {
        return None;
    }
    match record::parse_record(l, version) {
        Ok(Record::FileFormat(_)) => plain(kind == kind::FILE_FORMAT, 10),
        Ok(Record::Map(map)) => {
            if map.key.kind() != kind {
                return None;
            }
            Some(Alone::Map(map))
        }
        Ok(Record::Text(value)) => plain(kind == kind::OTHER_TEXT, record::key_length(value)),
        Err(_) => None,
    }
}

// Whether an entry tells a key of this length and this many fields, where its form tells them.
fn tells(e: Entry, form: Form, key_length: usize, fields: usize) -> bool
    ensures { result ≡ tells (entry_of e) (counts_in (limits_by form).counted key_length fields) }
{
    form.counted(key_length) == e.key_length && form.counted(fields) == e.field_count
}

pub fn read_entry(h: &[u8], form: Form, e: Entry, version: FileFormat) -> Option<Alone>
    ensures { ReadsEntry (limits_by form).counted (version_of version) h.now (entry_of e) result }
{
    let l = part::line_part(h, e);
    match read_alone(l, e.kind, version) {
        Some(Alone::Map(map)) => {
            if tells(e, form, record::key_length(map.value), map.tally.fields) {
                return Some(Alone::Map(map));
            }
            None
        }
        Some(Alone::Plain(key_length)) => plain(tells(e, form, key_length, 0), key_length),
        None => None,
    }
}
