// The entries of a header, a line for each.
use crate::form::FORM;
use crate::say;
use entries::{kind, table};
use header::shown;
use values::bytes;

fn say_kind(kind: u8) {
    match kind {
        kind::FILE_FORMAT => say::cell(b"fileformat", 10),
        kind::INFO => say::cell(b"INFO", 10),
        kind::FILTER => say::cell(b"FILTER", 10),
        kind::FORMAT => say::cell(b"FORMAT", 10),
        kind::ALTERNATIVE_ALLELE => say::cell(b"ALT", 10),
        kind::CONTIG => say::cell(b"contig", 10),
        kind::OTHER_MAP => say::cell(b"map", 10),
        kind::OTHER_TEXT => say::cell(b"text", 10),
        kind::COLUMNS => say::cell(b"columns", 10),
        _ => say::cell(b"sample", 10),
    }
}

// A sample's name stands where a map has its ID.
fn say_id(header: &[u8], table: &[u64], n: usize, kind: u8, l: &[u8]) {
    if kind == kind::SAMPLE {
        say::cell(l, 16);
        return;
    }
    if !kind::has_id(kind) {
        say::cell(b"-", 16);
        return;
    }
    say::cell(
        shown::bytes_of(header, shown::id(header, table, FORM, n)),
        16,
    );
}

// A record's key stands between `##` and the first `=`.
fn say_key(kind: u8, l: &[u8]) {
    if kind::OTHER_TEXT < kind {
        say::text(1, b"-\n");
        return;
    }
    say::shown(1, bytes::part(l, 2, bytes::find(l, 2, b'=')));
    say::text(1, b"\n");
}

fn say_entry(header: &[u8], table: &[u64], n: usize, kind: u8, line: usize) {
    let l = shown::bytes_of(header, shown::entry(header, table, FORM, n));
    say::number_cell(n as u64, 6);
    say_kind(kind);
    say::number_cell(line as u64, 6);
    say_id(header, table, n, kind, l);
    say_key(kind, l);
}

pub fn say_entries(header: &[u8], table: &[u64]) {
    say::text(1, b"entry  kind       line   ID               key\n");
    let mut line = 0;
    for n in 0..table::count(table, FORM) {
        let kind = table::get(table, FORM, n).kind;
        // Each line has one entry, and the samples stand in the last line.
        if kind != kind::SAMPLE {
            line = n + 1;
        }
        say_entry(header, table, n, kind, line);
    }
}
