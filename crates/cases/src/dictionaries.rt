// What the dictionaries of a header answer, how far the table was written, and the words that were written to both slices. Asked: the
// version imposed, and the words of the table, of the strings and of the contigs.
ghost use Rattle.std.specs.Prelude.{◌≡◌, length};

use crate::{reads, text, words};
use dictionary::string_maps;
use dictionary::string_maps::DictionaryAnswer;
use values::output;

// No number of a case: it shows which words were written.
const UNWRITTEN: u64 = 18446744073709551607;

fn unwritten() -> [u64; 128]
    ensures { 128 ≡ length result }
{
    [UNWRITTEN; 128]
}

fn put_answer(out: &mut [u8], answer: DictionaryAnswer) -> usize {
    let outcome = answer.outcome;
    let at = reads::put_place(
        out,
        0,
        string_maps::number(outcome),
        answer.line,
        answer.start,
        answer.entries,
    );
    let next = text::put_number(out, at, b" strings=", answer.strings as u64);
    text::put_number(out, next, b" contigs=", answer.contigs as u64)
}

// With the first words of the table and of the slices.
fn put_dictionaries(
    out: &mut [u8],
    header: &[u8],
    asked: &[u8],
    table: &mut [u64],
    strings: &mut [u64],
    contigs: &mut [u64],
) -> usize {
    let Some(table) = table.get_mut(..words::size(asked, 2)) else {
        return 0;
    };
    let Some(strings) = strings.get_mut(..words::size(asked, 3)) else {
        return 0;
    };
    let Some(contigs) = contigs.get_mut(..words::size(asked, 4)) else {
        return 0;
    };
    put_answer(
        out,
        string_maps::dictionaries(
            header,
            words::imposed(asked, 1),
            words::form(asked),
            table,
            strings,
            contigs,
        ),
    )
}

fn put_slice(out: &mut [u8], at: usize, words: &[u64]) -> usize {
    let next = output::put_bytes(out, at, b" |");
    reads::put_words(out, next, &words[..text::written_end(words, &UNWRITTEN)])
}

pub fn put(out: &mut [u8], header: &[u8], asked: &[u8]) -> usize {
    let mut table = reads::unwritten_table();
    let mut strings = unwritten();
    let mut contigs = unwritten();
    let at = put_dictionaries(out, header, asked, &mut table, &mut strings, &mut contigs);
    let written = text::written_end(&table, &reads::UNWRITTEN);
    let changed = text::put_number(out, at, b" changed=", written as u64);
    let listed = put_slice(out, changed, &strings);
    put_slice(out, listed, &contigs)
}
