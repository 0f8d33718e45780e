// The entries that carry a number with a sign or a leading zero, a line for each.
use crate::form::FORM;
use crate::{fields, numbers, say};
use entries::table;
use header::shown;
use records::file_format::FileFormat;
use records::key::MapKey;
use records::record;
use records::record::Record;
use records::tag::Tag;
use spelling::odd;
use values::cursor::Cursor;
use values::{bytes, integer};

fn is_odd(value: &[u8]) -> bool {
    match integer::parse_u64(value) {
        Some((_, plain)) => !plain,
        None => false,
    }
}

fn is_odd_field(key: MapKey, version: FileFormat, name: &[u8], value: &[u8]) -> bool {
    let tag = key.tag(version, name);
    matches!(tag, Tag::Number | Tag::Length | Tag::Idx) && is_odd(value)
}

// Whether a field was said, this one or one before.
fn say_field(field: &[u8], odd: bool, said: bool) -> bool {
    if !odd {
        return said;
    }
    if said {
        say::text(1, b" ");
    }
    say::shown(1, field);
    true
}

// The fields that stand at `start` and are oddly spelled numbers, as written, with a blank between.
fn say_fields(l: &[u8], key: MapKey, version: FileFormat, start: usize) {
    let brackets = key.has_brackets(version);
    let mut c = Cursor { at: start };
    let mut said = false;
    for _ in 0..l.len() {
        let at = c.at;
        let Some((equals, text, next)) = c.split_field(l, brackets) else {
            return;
        };
        let value = bytes::part(l, text.start, text.end);
        let odd = is_odd_field(key, version, bytes::part(l, at, equals), value);
        said = say_field(bytes::part(l, at, next.at), odd, said);
        let Some(more) = next.consume_separator(l) else {
            return;
        };
        c = more;
    }
}

fn say_numbers(l: &[u8], version: FileFormat) {
    if let Ok(Record::Map(map)) = record::parse_record(l, version) {
        say_fields(l, map.key, version, fields::first_field(l));
    }
}

// The line of an entry that is a map.
pub fn line_of(n: usize) -> u64 {
    if n < 0xFFFF_FFFF { n as u64 + 1 } else { 0 }
}

// Number, line, key, ID and the fields.
fn say_entry(header: &[u8], table: &[u64], n: usize, version: FileFormat) {
    let l = shown::bytes_of(header, shown::entry(header, table, FORM, n));
    say::decimal(1, n as u64);
    say::text(1, b"\t");
    say::decimal(1, line_of(n));
    say::text(1, b"\t");
    say::shown(1, fields::key_of(l));
    say::text(1, b"\t");
    numbers::say_id(header, table::get(table, FORM, n));
    say::text(1, b"\t");
    say_numbers(l, version);
    say::text(1, b"\n");
}

// Of an accepted header's entries; the list has room for all that a header of this memory can have. A map stands in the line of its
// entry's number and one.
pub fn say_odd(header: &[u8], table: &[u64], version: FileFormat, list: &mut [u64]) {
    let answer = odd::odd_entries(header, table, FORM, version, list);
    for n in list.iter().take(answer.listed) {
        say_entry(header, table, *n as usize, version);
    }
}
