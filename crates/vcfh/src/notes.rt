// What an accepted header has that may surprise, in notes on standard error.
use crate::form::FORM;
use crate::{fields, say};
use entries::entry::Entry;
use entries::{kind, part, table};
use records::file_format::FileFormat;
use std::ops::RangeInclusive;
use values::{bytes, hash};

// The lines that have an entry. No table has so many entries that their number would not fit.
fn lines_of(table: &[u64]) -> RangeInclusive<u32> {
    1..=u32::try_from(table::count(table, FORM)).unwrap_or(0)
}

// The entry of a line, which counts from 1.
fn entry_of(table: &[u64], line: u32) -> Entry {
    table::get(table, FORM, (line as usize).saturating_sub(1))
}

// Whether an entry is a text that looks like a map.
fn is_map_like(header: &[u8], e: Entry) -> bool {
    let l = part::line_part(header, e);
    e.kind == kind::OTHER_TEXT
        && bytes::part(l, bytes::find(l, 2, b'='), l.len()).starts_with(b"=<")
}

// How many there are besides the one that is named.
fn say_others(others: usize, what: &[u8]) {
    if others != 0 {
        say::numbered(2, b" (and ", others as u64);
        say::text(2, what);
    }
}

fn note_map_like(header: &[u8], table: &[u64], version: FileFormat) {
    if !version.lt(FileFormat::V4_3) {
        return;
    }
    let mut found = lines_of(table).filter(|line| is_map_like(header, entry_of(table, *line)));
    let Some(line) = found.next() else {
        return;
    };
    say::numbered(2, b"note: line ", line as u64);
    say_others(found.count(), b" more)");
    say::text(2, b": under version ");
    fields::say_version(version);
    say::text(
        2,
        b" a value that begins with < but not with <ID= is text, and its ID is not checked\n",
    );
}

// Whether two IDs are one but for case and blanks.
fn are_alike(a: &[u8], b: &[u8]) -> bool {
    let p = a
        .iter()
        .filter(|b| **b != b' ')
        .map(|b| b.to_ascii_lowercase());
    let q = b
        .iter()
        .filter(|b| **b != b' ')
        .map(|b| b.to_ascii_lowercase());
    p.eq(q)
}

// The first bytes of an ID, in small letters and without blanks; answers how many there are.
fn fold(id: &[u8], out: &mut [u8]) -> usize {
    let mut k: usize = 0;
    for b in id {
        if k < out.len() && *b != b' ' {
            out[k] = b.to_ascii_lowercase();
            k += 1;
        }
    }
    k
}

// IDs that are alike have one such hash.
fn hash_of(kind: u8, id: &[u8]) -> u32 {
    let mut folded = [0u8; 32];
    let k = fold(id, &mut folded);
    hash::hash_of(kind, bytes::part(&folded, 0, k), false)
}

// Whether the IDs of two lines are alike and stand under one key.
fn are_fellows(header: &[u8], table: &[u64], line: u32, other: u32) -> bool {
    let e = entry_of(table, line);
    let f = entry_of(table, other);
    // Kept: `bytes::same`: with `==` on the keys a header of IDs that are alike takes 5 % longer.
    are_alike(part::id_part(header, e), part::id_part(header, f))
        && bytes::same(
            fields::key_of(part::line_part(header, e)),
            fields::key_of(part::line_part(header, f)),
        )
}

// An earlier line whose ID is alike; if there is none, this line gets a slot, if one of sixteen is free, which is 0.
fn meet(
    header: &[u8],
    table: &[u64],
    slots: &mut [u32; 16384],
    line: u32,
    hash: u32,
) -> Option<u32> {
    for turn in 0..16 {
        let at = ((hash % 16384 + turn) % 16384) as usize;
        let slot = slots[at];
        if slot == 0 {
            slots[at] = line;
            return None;
        }
        if are_fellows(header, table, slot, line) {
            return Some(slot);
        }
    }
    None
}

// The same for any line.
fn find_fellow(header: &[u8], table: &[u64], slots: &mut [u32; 16384], line: u32) -> Option<u32> {
    let e = entry_of(table, line);
    if !kind::has_id(e.kind) {
        return None;
    }
    let hash = hash_of(e.kind, part::id_part(header, e));
    meet(header, table, slots, line, hash)
}

fn say_fellow(header: &[u8], table: &[u64], line: u32) {
    say::shown(2, part::id_part(header, entry_of(table, line)));
    say::numbered(2, b" (line ", line as u64);
    say::text(2, b")");
}

fn note_alike(header: &[u8], table: &[u64]) {
    let mut slots = [0u32; 16384];
    let mut found = lines_of(table).filter_map(|line| {
        find_fellow(header, table, &mut slots, line).map(|fellow| (line, fellow))
    });
    let Some((line, fellow)) = found.next() else {
        return;
    };
    let l = part::line_part(header, entry_of(table, line));
    say::text(2, b"note: the ");
    say::shown(2, fields::key_of(l));
    say::text(2, b" IDs ");
    say_fellow(header, table, fellow);
    say::text(2, b" and ");
    say_fellow(header, table, line);
    say::text(2, b" differ only in case or blanks");
    say_others(found.count(), b" more such pairs)");
    say::text(2, b"\n");
}

fn note_unended(header: &[u8]) {
    if header.last().is_some_and(|b| *b != b'\n') {
        say::text(
            2,
            b"note: the column line has no line ending: is the file cut short?\n",
        );
    }
}

// Of an accepted header with these entries.
pub fn say_notes(header: &[u8], table: &[u64], version: FileFormat) {
    note_map_like(header, table, version);
    note_alike(header, table);
    note_unended(header);
}
