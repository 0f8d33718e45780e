// What a reading answers, and which of the table's words it writes. Asked: the version imposed and the table's words.
ghost use Rattle.std.specs.Prelude.{◌≡◌, length};

use crate::{text, words};
use entries::form::Form;
use header::parser;
use header::parser::ReadAnswer;
use records::file_format::FileFormat;
use values::output;

// No word of an entry, whose last bits are zero: it shows which words were written.
pub const UNWRITTEN: u64 = 7;

pub fn unwritten_table() -> [u64; 8192]
    ensures { 8192 ≡ length result }
{
    [UNWRITTEN; 8192]
}

pub fn put_place(
    out: &mut [u8],
    at: usize,
    number: u64,
    line: usize,
    start: usize,
    entries: usize,
) -> usize {
    let numbered = text::put_number(out, at, b"", number);
    let lined = text::put_number(out, numbered, b" line=", line as u64);
    let started = text::put_number(out, lined, b" start=", start as u64);
    text::put_number(out, started, b" entries=", entries as u64)
}

pub fn put_accepted(out: &mut [u8], at: usize, version: FileFormat, samples: usize) -> usize {
    let major = text::put_number(out, at, b" version=", version.major as u64);
    let minor = text::put_number(out, major, b".", version.minor as u64);
    text::put_number(out, minor, b" samples=", samples as u64)
}

fn put_answer(out: &mut [u8], answer: ReadAnswer) -> usize {
    let outcome = answer.outcome;
    match outcome {
        Ok((version, samples)) => {
            let at = put_place(out, 0, 0, answer.line, answer.start, answer.entries);
            put_accepted(out, at, version, samples)
        }
        Err(refusal) => put_place(
            out,
            0,
            refusal.number(),
            answer.line,
            answer.start,
            answer.entries,
        ),
    }
}

// Each word after a space, in hex.
pub fn put_words(out: &mut [u8], at: usize, words: &[u64]) -> usize {
    let mut next = at;
    for word in words {
        next = output::put_byte(out, next, b' ');
        next = text::put_hex(out, next, *word);
    }
    next
}

// How far words were written, the first 24 of them, and the last two if there are more.
pub fn put_table(out: &mut [u8], at: usize, table: &[u64]) -> usize {
    let words = &table[..text::written_end(table, &UNWRITTEN)];
    let written = words.len();
    let next = text::put_number(out, at, b" changed=", written as u64);
    if written <= 24 {
        return put_words(out, next, words);
    }
    let listed = put_words(out, next, &words[..24]);
    let dots = output::put_bytes(out, listed, b" ..");
    put_words(out, dots, &words[written - 2..])
}

// Reads the header into the first `room` words of the table.
fn put_reading(
    out: &mut [u8],
    header: &[u8],
    imposed: Option<FileFormat>,
    form: Form,
    table: &mut [u64],
    room: usize,
) -> usize {
    let Some(table) = table.get_mut(..room) else {
        return 0;
    };
    put_answer(out, parser::read(header, imposed, form, table))
}

pub fn put(out: &mut [u8], header: &[u8], asked: &[u8]) -> usize {
    let mut table = unwritten_table();
    let at = put_reading(
        out,
        header,
        words::imposed(asked, 1),
        words::form(asked),
        &mut table,
        words::size(asked, 2),
    );
    put_table(out, at, &table)
}
