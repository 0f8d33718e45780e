// An index that is built over the entries of a table, and a search in it. Asked: the table's words, the places, the kind, the ID's
// length with the words of places forged after it, parted by commas, and the table's words forged. The ID stands behind the header.
use crate::{calls, library, text, words};
use capi::indexes;
use capi::indexes::VcfhFound;
use header::parser;
use index::build::BuildAnswer;
use index::find::Search;
use index::{build, find};
use values::{integer, output};

// What a place holds before the index is built.
const UNTOUCHED: u32 = 7777;

fn put_built(out: &mut [u8], answer: BuildAnswer) -> usize {
    let outcome = answer.outcome;
    let numbered = text::put_number(out, 0, b"number=", build::number(outcome));
    text::put_number(out, numbered, b" placed=", answer.placed as u64)
}

fn put_found(out: &mut [u8], at: usize, found: Option<usize>) -> usize {
    match found {
        Some(n) => text::put_number(out, at, b" entry=", n as u64),
        None => output::put_bytes(out, at, b" none"),
    }
}

fn put_search(out: &mut [u8], at: usize, search: Search) -> usize {
    let found = search.found;
    let next = put_found(out, at, found);
    text::put_number(out, next, b" looked=", search.looked as u64)
}

// The k-th number of the fifth word.
fn listed(asked: &[u8], k: usize) -> Option<(u64, bool)> {
    integer::parse_u64(text::nth(words::word(asked, 4), b',', k))
}

fn forge(index: &mut [u32], asked: &[u8]) {
    for (k, place) in index.iter_mut().enumerate() {
        match listed(asked, k + 1) {
            Some((value, _)) => *place = (value % 0x1_0000_0000) as u32,
            None => {}
        }
    }
}

// Builds the index, forges places of it, and searches.
fn put_both(
    out: &mut [u8],
    header: &[u8],
    id: &[u8],
    asked: &[u8],
    table: &[u64],
    index: &mut [u32],
) -> usize {
    let form = words::form(asked);
    let at = put_built(out, build::build_index(header, table, form, index));
    let next = text::put_numbers(out, at, b" index:", index);
    forge(index, asked);
    let kind = words::size(asked, 3) as u64;
    put_search(out, next, find::find(header, table, form, index, kind, id))
}

fn put_entry_in_c(out: &mut [u8], at: usize, answer: VcfhFound) -> usize {
    if answer.found == 0 {
        return output::put_bytes(out, at, b" none");
    }
    text::put_number(out, at, b" entry=", answer.entry)
}

fn put_found_in_c(out: &mut [u8], at: usize, answer: VcfhFound) -> usize {
    let next = put_entry_in_c(out, at, answer);
    text::put_number(out, next, b" looked=", answer.looked)
}

fn put_built_in_c(
    out: &mut [u8],
    header: &[u8],
    table: &[u64],
    form: u64,
    index: &mut [u32],
) -> usize {
    let built = indexes::vcfh_build_index(header, table, form, index);
    let numbered = text::put_number(out, 0, b"number=", built.number);
    let at = text::put_number(out, numbered, b" placed=", built.placed);
    text::put_numbers(out, at, b" index:", index)
}

// The same through the library for C, whose numbers are told apart by their order alone.
fn put_both_in_c(
    out: &mut [u8],
    header: &[u8],
    id: &[u8],
    asked: &[u8],
    table: &[u64],
    index: &mut [u32],
) -> usize {
    let form = library::form_of(asked);
    let next = put_built_in_c(out, header, table, form, index);
    forge(index, asked);
    let kind = words::size(asked, 3) as u64;
    put_found_in_c(
        out,
        next,
        indexes::vcfh_find(header, table, form, index, kind, id),
    )
}

// Reads the header into the table, and forges words of that.
fn put_read(
    out: &mut [u8],
    header: &[u8],
    id: &[u8],
    asked: &[u8],
    table: &mut [u64],
    index: &mut [u32],
) -> usize {
    parser::read(header, None, words::form(asked), table);
    calls::forge(table, asked);
    if words::is_asked(asked, b"c-index") {
        return put_both_in_c(out, header, id, asked, table, index);
    }
    put_both(out, header, id, asked, table, index)
}

pub fn is_asked(asked: &[u8]) -> bool {
    words::is_asked(asked, b"index") || words::is_asked(asked, b"c-index")
}

fn id_length(asked: &[u8]) -> usize {
    match listed(asked, 0) {
        Some((length, _)) => length as usize,
        None => 0,
    }
}

pub fn put(out: &mut [u8], input: &[u8], asked: &[u8]) -> usize {
    let length = id_length(asked);
    if input.len() < length {
        return 0;
    }
    let (header, id) = input.split_at(input.len() - length);
    let mut words = [0u64; 64];
    let Some(table) = words.get_mut(..words::size(asked, 1)) else {
        return 0;
    };
    let mut places = [UNTOUCHED; 64];
    let Some(index) = places.get_mut(..words::size(asked, 2)) else {
        return 0;
    };
    put_read(out, header, id, asked, table, index)
}
