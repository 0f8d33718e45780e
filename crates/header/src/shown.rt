// The calls on an entry number: parts of the header, for any table words and any numbers. None is refusal 29.
ghost use Rattle.std.specs.Prelude.{◌≡◌, length};
ghost use Rattle.rules.specs.Shown.{line_in};
ghost use Rattle.records.specs.Formats.{version_of};
ghost use Rattle.entries.specs.Values.{entry_of, limits_by};
ghost use Rattle.entries.specs.Tables.{shown_field};
ghost use Rattle.entries.specs.Shown.{answered, or_refused, shown_as, Inside};
ghost use Rattle.header.specs.Fields.{field_in, FieldAt};

use alone::read;
use alone::read::Alone;
use entries::entry::Entry;
use entries::form::Form;
pub use entries::shown::{KeyShown, Shown, bytes_of, entry, id, key};
use entries::{kind, part, shown};
use records::file_format::FileFormat;

// Field i of an entry's line, read alone, as a part of that line.
fn line_field(h: &[u8], form: Form, e: Entry, version: FileFormat, i: usize) -> Shown
    ensures shown { result ≡ shown_as (field_in (limits_by form).counted h.now (version_of version) (entry_of e) i) }
    ensures inside { Inside (length (line_in h.now (entry_of e))) result }
{
    match read::read_entry(h, form, e, version) {
        Some(Alone::Map(map)) => {
            let l = part::line_part(h, e);
            let key = map.key;
            shown::nth_field(l, map.value + 1, key.has_brackets(version), i)
        }
        Some(Alone::Plain(_)) => None,
        None => None,
    }
}

// The same as a part of the header.
fn field_at(h: &[u8], form: Form, e: Entry, version: FileFormat, i: usize) -> Shown
    ensures { FieldAt (limits_by form).counted h.now (version_of version) (entry_of e) i result }
{
    let at = e.start;
    match line_field(h, form, e, version, i) {
        Some((start, end)) => Some((at + start, at + end)),
        None => None,
    }
}

// Field i, from 0, of entry n, key through value, quotes too; the entry's line is read again, under this version.
pub fn field(h: &[u8], table: &[u64], form: Form, n: usize, version: FileFormat, i: usize) -> Shown
    ensures shown { answered result ≡ or_refused (shown_field form h.now table.now n (version_of version) i) }
    ensures inside { Inside (length h.now) result }
{
    let Some(e) = shown::entry_at(h, table, form, n) else {
        return None;
    };
    if !kind::has_id(e.kind) {
        return None;
    }
    field_at(h, form, e, version, i)
}
