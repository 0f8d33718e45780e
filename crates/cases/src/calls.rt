// What the calls show of entries. Asked: the version under which fields are read, the table's words, the entry and the field (no
// number: each, and one past the last), then words to forge (no number: the word that reading left stays).
use crate::{text, words};
use entries::form::Form;
use entries::table;
use header::shown::Shown;
use header::{parser, shown};
use records::file_format::FileFormat;
use values::output;

// The form of the table, the version under which fields are read, and the field that is asked for.
#[derive(Clone, Copy)]
struct Shows {
    form: Form,
    version: FileFormat,
    field: Option<(u64, bool)>,
}

fn put_shown(out: &mut [u8], at: usize, shown: Shown) -> usize {
    match shown {
        Some((start, end)) => {
            let next = text::put_number(out, at, b"", start as u64);
            text::put_number(out, next, b"-", end as u64)
        }
        None => output::put_bytes(out, at, b"29"),
    }
}

// The ID's part, and its bytes.
fn put_id(out: &mut [u8], at: usize, header: &[u8], table: &[u64], form: Form, n: usize) -> usize {
    let id = shown::id(header, table, form, n);
    let labelled = output::put_bytes(out, at, b" id=");
    let placed = put_shown(out, labelled, id);
    let next = output::put_byte(out, placed, b' ');
    output::put_bytes(out, next, shown::bytes_of(header, id))
}

// The key's part, and how many fields its record has.
fn put_key(out: &mut [u8], at: usize, header: &[u8], table: &[u64], form: Form, n: usize) -> usize {
    let labelled = output::put_bytes(out, at, b" key=");
    match shown::key(header, table, form, n) {
        Some((start, end, fields)) => {
            let placed = put_shown(out, labelled, Some((start, end)));
            text::put_number(out, placed, b" of ", fields as u64)
        }
        None => output::put_bytes(out, labelled, b"29"),
    }
}

// The fields up to the first that is refused, at most 64.
fn put_fields(
    out: &mut [u8],
    at: usize,
    header: &[u8],
    table: &[u64],
    form: Form,
    n: usize,
    version: FileFormat,
) -> usize {
    let mut next = at;
    for i in 0..64 {
        let shown = shown::field(header, table, form, n, version, i);
        next = output::put_byte(out, next, b' ');
        next = put_shown(out, next, shown);
        match shown {
            Some((_, _)) => {}
            None => return next,
        }
    }
    next
}

// The entry's number, its part, its ID and its key.
fn put_places(
    out: &mut [u8],
    at: usize,
    header: &[u8],
    table: &[u64],
    form: Form,
    n: usize,
) -> usize {
    let numbered = text::put_number(out, at, b"", n as u64);
    let labelled = output::put_bytes(out, numbered, b" entry=");
    let placed = put_shown(out, labelled, shown::entry(header, table, form, n));
    let named = put_id(out, placed, header, table, form, n);
    put_key(out, named, header, table, form, n)
}

fn put_entry(
    out: &mut [u8],
    at: usize,
    header: &[u8],
    table: &[u64],
    n: usize,
    shows: Shows,
) -> usize {
    let form = shows.form;
    let version = shows.version;
    let field = shows.field;
    let placed = put_places(out, at, header, table, form, n);
    match field {
        Some((i, _)) => {
            let next = output::put_bytes(out, placed, b" fields: ");
            let shown = shown::field(header, table, form, n, version, i as usize);
            put_shown(out, next, shown)
        }
        None => {
            let next = output::put_bytes(out, placed, b" fields:");
            put_fields(out, next, header, table, form, n, version)
        }
    }
}

// An entry on a line of its own.
fn put_line(
    out: &mut [u8],
    at: usize,
    header: &[u8],
    table: &[u64],
    n: usize,
    shows: Shows,
) -> usize {
    let next = output::put_byte(out, at, b'\n');
    put_entry(out, next, header, table, n, shows)
}

// How many entries a view steps over, then each entry, and one past the last.
fn put_entries(out: &mut [u8], header: &[u8], table: &[u64], shows: Shows) -> usize {
    let form = shows.form;
    let steps = view::count_from(header, table, form, 0);
    let mut next = text::put_number(out, 0, b"steps=", steps as u64);
    let entries = table::count(table, form);
    for n in 0..entries {
        next = put_line(out, next, header, table, n, shows);
    }
    put_line(out, next, header, table, entries, shows)
}

pub fn forge(table: &mut [u64], asked: &[u8]) {
    for (k, word) in table.iter_mut().enumerate() {
        match words::number(asked, k + 5) {
            Some((value, _)) => *word = value,
            None => {}
        }
    }
}

// Reads the header into the table, forges words of that, and puts what the calls show.
fn put_calls(out: &mut [u8], header: &[u8], asked: &[u8], table: &mut [u64]) -> usize {
    let form = words::form(asked);
    parser::read(header, None, form, table);
    forge(table, asked);
    let shows = Shows {
        form,
        version: words::version(asked, 1),
        field: words::number(asked, 4),
    };
    match words::number(asked, 3) {
        Some((n, _)) => put_entry(out, 0, header, table, n as usize, shows),
        None => put_entries(out, header, table, shows),
    }
}

pub fn put(out: &mut [u8], header: &[u8], asked: &[u8]) -> usize {
    let mut words = [0; 64];
    let Some(table) = words.get_mut(..words::size(asked, 2)) else {
        return 0;
    };
    put_calls(out, header, asked, table)
}
