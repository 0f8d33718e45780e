// The entries of a table that carry an oddly spelled number. Asked: the version, the table's words, the list's words, a word that
// says nothing, and the words forged.
use crate::{calls, text, words};
use entries::form::Form;
use header::parser;
use records::file_format::FileFormat;
use spelling::odd;

fn put_answer(
    out: &mut [u8],
    header: &[u8],
    table: &[u64],
    form: Form,
    version: FileFormat,
    list: &mut [u64],
) -> usize {
    let answer = odd::odd_entries(header, table, form, version, list);
    let outcome = answer.outcome;
    let numbered = text::put_number(out, 0, b"number=", odd::number(outcome));
    let listed = text::put_number(out, numbered, b" listed=", answer.listed as u64);
    text::put_numbers(out, listed, b" list:", list)
}

// Reads the header into the table, forges words of that, and lists.
fn put_odd(
    out: &mut [u8],
    header: &[u8],
    asked: &[u8],
    table: &mut [u64],
    list: &mut [u64],
) -> usize {
    let form = words::form(asked);
    parser::read(header, None, form, table);
    calls::forge(table, asked);
    put_answer(out, header, table, form, words::version(asked, 1), list)
}

pub fn put(out: &mut [u8], header: &[u8], asked: &[u8]) -> usize {
    let mut words = [0u64; 64];
    let Some(table) = words.get_mut(..words::size(asked, 2)) else {
        return 0;
    };
    let mut places = [7777u64; 32];
    let Some(list) = places.get_mut(..words::size(asked, 3)) else {
        return 0;
    };
    put_odd(out, header, asked, table, list)
}
