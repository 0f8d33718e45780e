// What is wrong with the fields of a map, in a sentence on standard error.
use crate::{asked, say};
use records::file_format::FileFormat;
use records::{field, key};
use values::bytes;
use values::cursor::Cursor;
use values::string::Text;

// A record's key stands between `##` and the first `=`.
pub fn key_of(l: &[u8]) -> &[u8] {
    bytes::part(l, 2, bytes::find(l, 2, b'='))
}

// The place of the first field, after the `<` of the value.
pub fn first_field(l: &[u8]) -> usize {
    let open = bytes::find(l, bytes::find(l, 2, b'='), b'<');
    if l.len() <= open {
        return open;
    }
    open + 1
}

// The place where the fields cannot be read on: a field, or what follows a value. No line has more fields than bytes.
fn stuck_place(l: &[u8], version: FileFormat) -> usize {
    let key = key::map_key_of(key_of(l));
    let brackets = key.has_brackets(version);
    let mut c = Cursor { at: first_field(l) };
    for _ in 0..l.len() {
        let Some((_, _, next)) = c.split_field(l, brackets) else {
            return c.at;
        };
        let Some(d) = next.consume_separator(l) else {
            return next.at;
        };
        c = d;
    }
    c.at
}

// Columns count from 1.
fn say_column(at: usize) {
    if at < 0xFFFF_FFFF {
        say::numbered(2, b"column ", at as u64 + 1);
        say::text(2, b": ");
    }
}

fn are_blanks(s: &[u8]) -> bool {
    s.iter().all(|b| matches!(*b, b' ' | b'\t' | b'\r'))
}

// How many of the first bytes are shown: at most 40, and no part of a character that takes several.
fn shown_length(s: &[u8]) -> usize {
    s.iter().take(40).take_while(|b| b.is_ascii()).count()
}

// A text from here on, cut where it is long.
fn say_rest(s: &[u8]) {
    let end = shown_length(s);
    say::shown(2, bytes::part(s, 0, end));
    if end < s.len() {
        say::text(2, b"...");
    }
}

fn say_after_map(at: usize, rest: &[u8]) {
    if are_blanks(rest) {
        say::text(2, b"blanks after the >\n");
        return;
    }
    say_column(at);
    say_rest(rest);
    say::text(2, b" after the >\n");
}

// 8: what stands where a value of the map, or the map, should have ended.
fn say_unended(l: &[u8], at: usize) {
    if l.len() <= at {
        say::text(2, b"the > is missing at the end of the line\n");
        return;
    }
    let next = at + 1;
    if l[at] == b'>' {
        say_after_map(next, bytes::part(l, next, l.len()));
        return;
    }
    say_column(at);
    say_rest(bytes::part(l, at, l.len()));
    say::text(2, b" after a value, where , or > belongs\n");
}

// 8: the value is not a whole map.
pub fn say_no_map(l: &[u8], version: FileFormat) {
    let value = bytes::part(l, bytes::find(l, 2, b'='), l.len());
    if value.starts_with(b"=<") {
        say_unended(l, stuck_place(l, version));
        return;
    }
    say::text(2, b"the ");
    say::shown(2, key_of(l));
    say::text(2, b" line has no < after its =\n");
}

fn ends_name(b: &u8) -> bool {
    matches!(*b, b'=' | b',' | b'<' | b'>' | b'"')
}

fn say_odd_name(name: &[u8], what: &[u8]) {
    say_rest(name);
    say::text(2, what);
}

// 9: no key and `=` stand at the start of the field.
fn say_no_key(field: &[u8]) {
    let end = field.iter().position(ends_name);
    let name = bytes::part(field, 0, end.unwrap_or(field.len()));
    let after = end.map(|end| field[end]);
    match (name, after) {
        ([], Some(b'=')) => say::text(2, b"there is nothing before the =\n"),
        ([], _) => say::text(2, b"a field is missing\n"),
        (_, Some(b'"')) => say_odd_name(name, b" has a quote in its name\n"),
        (_, Some(b'<')) => say_odd_name(name, b" has a < in its name\n"),
        _ => say_odd_name(name, b" has no =\n"),
    }
}

// 9: the field that cannot be read, and its column.
pub fn say_bad_field(l: &[u8], version: FileFormat) {
    let at = stuck_place(l, version);
    let c = Cursor { at };
    say_column(at);
    match c.parse_key(l) {
        Some((equals, _)) => {
            say::text(2, b"the quoted value of ");
            say_rest(bytes::part(l, at, equals));
            say::text(
                2,
                b" does not end, or has a backslash that is not followed by a quote or a backslash\n",
            );
        }
        None => say_no_key(bytes::part(l, at, l.len())),
    }
}

// What a field of the map has, no bytes if it has none.
fn value_of(l: &[u8], name: &[u8]) -> Text {
    match field::find_field(l, first_field(l), false, name) {
        Some(text) => text,
        None => Text {
            start: 0,
            end: 0,
            quoted: false,
        },
    }
}

fn say_value(l: &[u8], name: &[u8]) {
    let text = value_of(l, name);
    say::text(2, name);
    say::text(2, b"=");
    say_rest(bytes::part(l, text.start, text.end));
}

pub fn say_version(version: FileFormat) {
    say::decimal(2, version.major as u64);
    say::text(2, b".");
    say::decimal(2, version.minor as u64);
}

// 18: what a reserved ID was declared with, and what the table of the version asks.
pub fn say_mismatch(l: &[u8], version: FileFormat) {
    let id = value_of(l, b"ID");
    let name = bytes::part(l, id.start, id.end);
    say::text(2, b"the ");
    say::shown(2, key_of(l));
    say::text(2, b" line of ");
    say_rest(name);
    say::text(2, b" has ");
    say_value(l, b"Number");
    say::text(2, b" and ");
    say_value(l, b"Type");
    say::text(2, b", but VCF ");
    say_version(version);
    say::text(2, b" reserves it with ");
    asked::say_asked(version, key_of(l), name, id.quoted);
    say::text(2, b"\n");
}
