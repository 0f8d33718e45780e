// A field of an entry, its key and its value apart: by its number, or by its key.
ghost use Rattle.std.specs.Prelude.{◌≡◌, length};
ghost use Rattle.rules.specs.Shown.{line_in, entry_record};
ghost use Rattle.records.specs.Formats.{version_of};
ghost use Rattle.entries.specs.Values.{entry_of, limits_by};
ghost use Rattle.entries.specs.Tables.{entry_at, shown_field};
ghost use Rattle.lookup.specs.Fields.{cut_of, CutInside, field_apart, record_text, entry_text, TextAt, TextInside};

use alone::read;
use alone::read::Alone;
use entries::entry::Entry;
use entries::form::Form;
use entries::shown::Shown;
use entries::{kind, part, shown};
use records::field;
use records::file_format::FileFormat;
use values::bytes;
use values::string::Text;

// A field as it is written: the length of its key, and where its value's text stands, without quotes.
#[derive(Clone, Copy)]
struct Cut {
    key_length: usize,
    start: usize,
    length: usize,
    quoted: bool,
}

// The key and the value's text, without quotes, as parts of the header.
#[derive(Clone, Copy)]
pub struct FieldParts {
    pub key_start: usize,
    pub key_length: usize,
    pub start: usize,
    pub length: usize,
    pub quoted: bool,
}

// At its first `=`; what follows is a quoted text if it begins with `"`.
fn split(w: &[u8]) -> Cut
    ensures cut { result ≡ cut_of w.now }
    ensures inside { CutInside (length w.now) result }
{
    let key_length = bytes::find(w, 0, b'=');
    let value = bytes::part(w, key_length + 1, w.len());
    let start = w.len() - value.len();
    if value.len() == 0 || value[0] != b'"' {
        return Cut {
            key_length,
            start,
            length: value.len(),
            quoted: false,
        };
    }
    let text = bytes::part(value, 1, value.len() - 1);
    Cut {
        key_length,
        start: start + 1,
        length: text.len(),
        quoted: true,
    }
}

// Field i, from 0, of entry n; the entry's line is read again, under this version.
pub fn field_parts(
    h: &[u8],
    table: &[u64],
    form: Form,
    n: usize,
    version: FileFormat,
    i: usize,
) -> Option<FieldParts>
    ensures { result ≡ field_apart h.now (shown_field form h.now table.now n (version_of version) i) }
{
    match header::shown::field(h, table, form, n, version, i) {
        Some((start, end)) => {
            let at = split(&h[start..end]);
            Some(FieldParts {
                key_start: start,
                key_length: at.key_length,
                start: start + at.start,
                length: at.length,
                quoted: at.quoted,
            })
        }
        None => None,
    }
}

// The value of the first field with this key in an entry's line, read alone, as a part of that line.
fn line_text(h: &[u8], form: Form, e: Entry, version: FileFormat, key: &[u8]) -> Option<Text>
    ensures found { result ≡ record_text key.now 0 (entry_record (limits_by form).counted h.now (version_of version) (entry_of e)) }
    ensures inside { TextInside (length (line_in h.now (entry_of e))) result }
{
    match read::read_entry(h, form, e, version) {
        Some(Alone::Map(map)) => {
            let l = part::line_part(h, e);
            let named = map.key;
            field::find_field(l, map.value + 1, named.has_brackets(version), key)
        }
        Some(Alone::Plain(_)) => None,
        None => None,
    }
}

// The same as a part of the header.
fn text_at(h: &[u8], form: Form, e: Entry, version: FileFormat, key: &[u8]) -> Option<Text>
    ensures { TextAt h.now (entry_of e) key.now (entry_record (limits_by form).counted h.now (version_of version) (entry_of e)) result }
{
    let at = e.start;
    match line_text(h, form, e, version, key) {
        Some(text) => Some(Text {
            start: at + text.start,
            end: at + text.end,
            quoted: text.quoted,
        }),
        None => None,
    }
}

// The value of the first field with this key of entry n; the entry's line is read again, under this version.
pub fn value(
    h: &[u8],
    table: &[u64],
    form: Form,
    n: usize,
    version: FileFormat,
    key: &[u8],
) -> Option<Text>
    ensures found { result ≡ entry_text (limits_by form).counted h.now (version_of version) key.now (entry_at form h.now table.now n) }
    ensures inside { TextInside (length h.now) result }
{
    let Some(e) = shown::entry_at(h, table, form, n) else {
        return None;
    };
    if !kind::has_id(e.kind) {
        return None;
    }
    text_at(h, form, e, version, key)
}
