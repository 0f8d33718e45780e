// What the library for C says under a name. Asked of a reading: as of `reads`. Asked of a name: the version under which lines are read
// again, the table's words, an entry and a field by number, a key, an ID, a field's key and the output's bytes. Asked of a text: whether it
// stands between quotes, the output's bytes, and what it is held against. Asked of an end: nothing more.
use crate::{library, reads, text, words};
use capi::lookups;
use capi::lookups::{VcfhDescribed, VcfhField, VcfhMeaning, VcfhValue};
use values::output;

pub fn is_asked(asked: &[u8]) -> bool {
    words::is_asked(asked, b"c-told")
        || words::is_asked(asked, b"c-look")
        || words::is_asked(asked, b"c-meaning")
        || words::is_asked(asked, b"c-end")
}

fn put_told(out: &mut [u8], header: &[u8], asked: &[u8]) -> usize {
    let mut table = reads::unwritten_table();
    let v = library::imposed_by(asked);
    let a = capi::vcfh_read(header, v.imposed, v.major, v.minor, v.form, &mut table);
    let numbered = text::put_number(out, 0, b"", a.number);
    let sampled = text::put_number(out, numbered, b" samples=", a.samples);
    let major = text::put_number(out, sampled, b" major=", a.major as u64);
    text::put_number(out, major, b" minor=", a.minor as u64)
}

// A part of the header, named by the words before its start.
fn put_part(out: &mut [u8], at: usize, label: &[u8], start: u64, length: u64) -> usize {
    let started = text::put_number(out, at, label, start);
    text::put_number(out, started, b" length=", length)
}

fn put_names(out: &mut [u8], at: usize, e: VcfhDescribed) -> usize {
    let key = put_part(out, at, b" key=", e.key_start, e.key_length);
    let has_id = text::put_number(out, key, b" has-id=", e.has_id);
    let id = put_part(out, has_id, b" id=", e.id_start, e.id_length);
    text::put_number(out, id, b" quoted=", e.quoted)
}

fn put_described(out: &mut [u8], e: VcfhDescribed) -> usize {
    let numbered = text::put_number(out, 0, b"entry ", e.number);
    let kind = text::put_number(out, numbered, b" kind=", e.kind);
    let line = put_part(out, kind, b" start=", e.start, e.length);
    put_names(out, line, e)
}

fn put_value(out: &mut [u8], at: usize, label: &[u8], value: VcfhValue) -> usize {
    let numbered = text::put_number(out, at, label, value.number);
    let started = text::put_number(out, numbered, b" start=", value.start);
    let sized = text::put_number(out, started, b" length=", value.length);
    text::put_number(out, sized, b" quoted=", value.quoted)
}

// A field by its number.
fn put_field(out: &mut [u8], at: usize, field: VcfhField) -> usize {
    let numbered = text::put_number(out, at, b", field ", field.number);
    let key = put_part(out, numbered, b" key=", field.key_start, field.key_length);
    let value = put_part(out, key, b" start=", field.start, field.length);
    text::put_number(out, value, b" quoted=", field.quoted)
}

// The same, and one by its key.
fn put_fields(out: &mut [u8], at: usize, header: &[u8], table: &[u64], asked: &[u8]) -> usize {
    let entry = words::size(asked, 3) as u64;
    let v = words::version(asked, 1);
    let form = library::form_of(asked);
    let number = words::size(asked, 4) as u64;
    let field = lookups::vcfh_field_parts(header, table, form, entry, v.major, v.minor, number);
    let placed = put_field(out, at, field);
    let name = words::word(asked, 7);
    let value = lookups::vcfh_value(header, table, form, entry, v.major, v.minor, name);
    put_value(out, placed, b", value ", value)
}

// An entry under a key and an ID, and its value.
fn put_under(out: &mut [u8], at: usize, header: &[u8], table: &[u64], asked: &[u8]) -> usize {
    let v = words::version(asked, 1);
    let form = library::form_of(asked);
    let key = words::word(asked, 5);
    let id = words::word(asked, 6);
    let name = words::word(asked, 7);
    let u = lookups::vcfh_find_entry(header, table, form, key, id);
    let numbered = text::put_number(out, at, b", under ", u.number);
    let entry = text::put_number(out, numbered, b" entry=", u.entry);
    let value = lookups::vcfh_find_value(header, table, form, v.major, v.minor, key, id, name);
    put_value(out, entry, b", found ", value)
}

// What was written of an output that was blank, and that the byte after it is blank still.
fn put_written(out: &mut [u8], at: usize, meant: VcfhMeaning, written: &[u8]) -> usize {
    let numbered = text::put_number(out, at, b", text ", meant.number);
    let sized = text::put_number(out, numbered, b" length=", meant.length);
    let spaced = output::put_bytes(out, sized, b" ");
    output::put_bytes(out, spaced, written)
}

// What that value means, in so many bytes of an output.
fn put_text(
    out: &mut [u8],
    at: usize,
    header: &[u8],
    table: &[u64],
    asked: &[u8],
    written: &mut [u8],
    space: usize,
) -> usize {
    let Some(room) = written.get_mut(..space) else {
        return at;
    };
    let v = words::version(asked, 1);
    let meant = lookups::vcfh_find_text(
        header,
        table,
        library::form_of(asked),
        v.major,
        v.minor,
        words::word(asked, 5),
        words::word(asked, 6),
        words::word(asked, 7),
        room,
    );
    put_written(out, at, meant, written)
}

fn put_found(out: &mut [u8], at: usize, header: &[u8], table: &[u64], asked: &[u8]) -> usize {
    let mut written = [b'.'; 16];
    let under = put_under(out, at, header, table, asked);
    put_text(
        out,
        under,
        header,
        table,
        asked,
        &mut written,
        words::size(asked, 8),
    )
}

// Of the entries that reading leaves.
fn put_read_names(out: &mut [u8], header: &[u8], asked: &[u8], table: &mut [u64]) -> usize {
    let form = library::form_of(asked);
    let entry = words::size(asked, 3) as u64;
    capi::vcfh_read(header, 0, 0, 0, form, table);
    let described = put_described(out, lookups::vcfh_describe(header, table, form, entry));
    let fields = put_fields(out, described, header, table, asked);
    put_found(out, fields, header, table, asked)
}

fn put_meaning(out: &mut [u8], s: &[u8], asked: &[u8], written: &mut [u8], space: usize) -> usize {
    let Some(room) = written.get_mut(..space) else {
        return 0;
    };
    let quoted = words::size(asked, 1) as u64;
    let meant = lookups::vcfh_meaning(s, quoted, room);
    let means = lookups::vcfh_means(s, quoted, words::word(asked, 3));
    let at = text::put_number(out, 0, b"means ", means);
    put_written(out, at, meant, written)
}

pub fn put(out: &mut [u8], input: &[u8], asked: &[u8]) -> usize {
    if words::is_asked(asked, b"c-told") {
        return put_told(out, input, asked);
    }
    if words::is_asked(asked, b"c-end") {
        return text::put_number(out, 0, b"", lookups::vcfh_header_end(input));
    }
    let size = words::size(asked, 2);
    if words::is_asked(asked, b"c-look") {
        let mut table = reads::unwritten_table();
        let Some(table) = table.get_mut(..size) else {
            return 0;
        };
        return put_read_names(out, input, asked, table);
    }
    let mut written = [b'.'; 16];
    put_meaning(out, input, asked, &mut written, size)
}
