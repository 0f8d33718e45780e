// The same through the library for C, whose numbers are told apart by their order alone. Asked of a reading or a form: as of `reads` and
// `house_forms`. Asked of a part: the version under which the field is read, the table's words, the entry and the field.
use crate::{house_forms, lookups, reads, text, words};
use capi::{VcfhKey, VcfhPart};
use entries::form::Form;
use records::file_format;

// What goes to the library as a version and a form: where none is imposed, numbers that are to be overlooked.
#[derive(Clone, Copy)]
pub struct Imposed {
    pub imposed: u64,
    pub major: u32,
    pub minor: u32,
    pub form: u64,
}

// Any number but 2 names the first form.
pub fn form_of(asked: &[u8]) -> u64 {
    match words::form(asked) {
        Form::First => 9,
        Form::Second => 2,
    }
}

pub fn imposed_by(asked: &[u8]) -> Imposed {
    match file_format::parse_file_format(words::word(asked, 1)) {
        Some(version) => Imposed {
            imposed: 1,
            major: version.major,
            minor: version.minor,
            form: form_of(asked),
        },
        None => Imposed {
            imposed: 0,
            major: 9,
            minor: 8,
            form: form_of(asked),
        },
    }
}

fn put_reading(out: &mut [u8], header: &[u8], v: Imposed, table: &mut [u64], room: usize) -> usize {
    let Some(table) = table.get_mut(..room) else {
        return 0;
    };
    let a = capi::vcfh_read(header, v.imposed, v.major, v.minor, v.form, table);
    reads::put_place(
        out,
        0,
        a.number,
        a.line as usize,
        a.start as usize,
        a.entries as usize,
    )
}

fn put_read(out: &mut [u8], header: &[u8], asked: &[u8]) -> usize {
    let mut table = reads::unwritten_table();
    let at = put_reading(
        out,
        header,
        imposed_by(asked),
        &mut table,
        words::size(asked, 2),
    );
    reads::put_table(out, at, &table)
}

fn put_answer(
    out: &mut [u8],
    header: &[u8],
    v: Imposed,
    table: &mut [u64],
    room: usize,
    form: &mut [u8],
) -> usize {
    let Some(table) = table.get_mut(..room) else {
        return 0;
    };
    form.fill(house_forms::BLANK);
    let a = capi::vcfh_house(header, v.imposed, v.major, v.minor, v.form, table, form);
    let at = reads::put_place(
        out,
        0,
        a.number,
        a.line as usize,
        a.start as usize,
        a.entries as usize,
    );
    text::put_number(out, at, b" length=", a.length)
}

fn put_form(out: &mut [u8], header: &[u8], asked: &[u8], form: &mut [u8]) -> usize {
    let mut table = reads::unwritten_table();
    let at = put_answer(
        out,
        header,
        imposed_by(asked),
        &mut table,
        words::size(asked, 2),
        form,
    );
    let changed = text::put_number(
        out,
        at,
        b" changed=",
        text::written_end(&table, &reads::UNWRITTEN) as u64,
    );
    house_forms::put_written(out, changed, form)
}

fn put_part(out: &mut [u8], at: usize, label: &[u8], part: VcfhPart) -> usize {
    let numbered = text::put_number(out, at, label, part.number);
    let started = text::put_number(out, numbered, b" start=", part.start);
    text::put_number(out, started, b" length=", part.length)
}

fn put_key(out: &mut [u8], at: usize, key: VcfhKey) -> usize {
    let numbered = text::put_number(out, at, b", key ", key.number);
    let started = text::put_number(out, numbered, b" start=", key.start);
    let sized = text::put_number(out, started, b" length=", key.length);
    text::put_number(out, sized, b" fields=", key.fields)
}

// An entry and its ID.
fn put_named(out: &mut [u8], header: &[u8], table: &[u64], form: u64, entry: u64) -> usize {
    let shown = put_part(
        out,
        0,
        b"entry ",
        capi::vcfh_entry(header, table, form, entry),
    );
    put_part(
        out,
        shown,
        b", id ",
        capi::vcfh_id(header, table, form, entry),
    )
}

// The same, one of its fields and its key.
fn put_parts(out: &mut [u8], header: &[u8], asked: &[u8], table: &[u64]) -> usize {
    let entry = words::size(asked, 3) as u64;
    let field = words::size(asked, 4) as u64;
    let v = words::version(asked, 1);
    let form = form_of(asked);
    let named = put_named(out, header, table, form, entry);
    let part = capi::vcfh_field(header, table, form, entry, v.major, v.minor, field);
    let placed = put_part(out, named, b", field ", part);
    put_key(out, placed, capi::vcfh_key(header, table, form, entry))
}

// Those of the entries that reading leaves.
fn put_read_parts(out: &mut [u8], header: &[u8], asked: &[u8], table: &mut [u64]) -> usize {
    capi::vcfh_read(header, 0, 0, 0, form_of(asked), table);
    put_parts(out, header, asked, table)
}

pub fn put(out: &mut [u8], input: &[u8], asked: &[u8], form: &mut [u8]) -> usize {
    if lookups::is_asked(asked) {
        return lookups::put(out, input, asked);
    }
    if words::is_asked(asked, b"c-read") {
        return put_read(out, input, asked);
    }
    if words::is_asked(asked, b"c-form") {
        let Some(form) = form.get_mut(..words::size(asked, 3)) else {
            return 0;
        };
        return put_form(out, input, asked, form);
    }
    if words::word(asked, 0) == b"c-utf8".as_slice() {
        return text::put_number(out, 0, b"", capi::vcfh_utf8(input));
    }
    let mut table = reads::unwritten_table();
    let Some(table) = table.get_mut(..words::size(asked, 2)) else {
        return 0;
    };
    put_read_parts(out, input, asked, table)
}
