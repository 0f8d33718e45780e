// The entry of an ID, found by an index of the table. Asked is an argument: `find-`, the name of the kind, `=` and the ID.
ghost use Rattle.std.specs.Prelude.{◌<◌, ◌^◌};

use crate::form::FORM;
use crate::{arguments, room, say, spelled};
use entries::{kind, table};
use header::shown;
use index::{build, find};
use values::bytes;

fn kind_of(name: &[u8]) -> u64 {
    let kind = match name {
        b"INFO" => kind::INFO,
        b"FILTER" => kind::FILTER,
        b"FORMAT" => kind::FORMAT,
        b"ALT" => kind::ALTERNATIVE_ALLELE,
        _ => kind::CONTIG,
    };
    kind as u64
}

fn name_in(asked: &[u8]) -> &[u8] {
    bytes::part(asked, 5, bytes::find(asked, 5, b'='))
}

fn id_in(asked: &[u8]) -> &[u8] {
    let rest = bytes::part(asked, bytes::find(asked, 5, b'='), asked.len());
    bytes::piece(rest, 1, rest.len())
}

// Where the entry stands and how many places were looked at, then its line.
fn say_entry(header: &[u8], table: &[u64], n: usize, looked: usize) {
    say::numbered(1, b"entry=", n as u64);
    say::numbered(1, b" line=", spelled::line_of(n));
    say::numbered(1, b" looked=", looked as u64);
    say::text(1, b"\n");
    say::shown(
        1,
        shown::bytes_of(header, shown::entry(header, table, FORM, n)),
    );
    say::text(1, b"\n");
}

fn say_none(looked: usize) {
    say::tell(b"e");
    say::numbered(1, b"none looked=", looked as u64);
    say::text(1, b"\n");
}

fn say_search(header: &[u8], table: &[u64], asked: &[u8], index: &mut [u32]) {
    build::build_index(header, table, FORM, index);
    let kind = kind_of(name_in(asked));
    let search = find::find(header, table, FORM, index, kind, id_in(asked));
    let found = search.found;
    match found {
        Some(n) => say_entry(header, table, n, search.looked),
        None => say_none(search.looked),
    }
}

// With the first places of an index.
fn look_in<const PLACES: usize>(header: &[u8], table: &[u64], asked: &[u8], places: usize)
    requires { PLACES < 2 ^ 61 }
{
    let mut index: [u32; PLACES] = room::filled(0);
    if places <= index.len() {
        say_search(header, table, asked, &mut index[..places]);
    }
}

// With as many places as twice the table's entries, of which there are 1,000,000 at most.
fn look(rt: HostRuntime, turns: usize, header: &[u8], table: &[u64], asked: &[u8]) {
    let entries = table::count(table, FORM);
    if 1000000 < entries {
        return;
    }
    let places = 2 * entries;
    if places <= 8192 {
        look_in::<8192>(header, table, asked, places);
    } else if places <= 131072 {
        look_in::<131072>(header, table, asked, places);
    } else if crate::may_be_large(rt) {
        room::apart(
            turns,
            &mut || look_in::<2000000>(header, table, asked, places),
        );
    } else {
        say::tell(b"i");
    }
}

// Among these entries; the argument of this number says what is looked for. There is room for any argument that a program may have.
pub fn say_found(rt: HostRuntime, count: usize, header: &[u8], table: &[u64], number: usize) {
    let mut word: [u8; 131072] = room::filled(0);
    let end = arguments::arg(rt, number, &mut word);
    look(rt, count, header, table, &word[..end]);
}
