// The dictionaries of BCF: a line for each string and each contig, with its number and its ID.
use crate::form::FORM;
use crate::{notes, say};
use dictionary::string_maps;
use dictionary::string_maps::DictionaryRefusal;
use entries::entry::Entry;
use entries::{part, table};
use records::file_format::FileFormat;
use values::cursor::Cursor;

// What the ID means.
pub fn say_id(header: &[u8], e: Entry) {
    let id = part::id_part(header, e);
    let mut c = Cursor { at: 0 };
    while let Some((b, next)) = c.next_unescaped(id, e.quoted) {
        say::shown(1, &[b]);
        c = next;
    }
}

fn say_pair(label: &[u8], header: &[u8], table: &[u64], entry: u64, number: u64) {
    say::numbered(1, label, number);
    say::text(1, b"\t");
    say_id(header, table::get(table, FORM, entry as usize));
    say::text(1, b"\n");
}

fn say_pairs(label: &[u8], header: &[u8], table: &[u64], words: &[u64], pairs: usize) {
    for pair in words.chunks_exact(2).take(pairs) {
        say_pair(label, header, table, pair[0], pair[1]);
    }
}

fn say_refused(number: u64, why: &[u8]) {
    say::tell(b"n");
    say::refused(number, 0, 0);
    say::text(2, why);
}

// Whether the header was read: else it is for the caller to say why not.
pub fn say_numbers(
    header: &[u8],
    imposed: Option<FileFormat>,
    table: &mut [u64],
    strings: &mut [u64],
    contigs: &mut [u64],
) -> bool {
    let answer = string_maps::dictionaries(header, imposed, FORM, table, strings, contigs);
    let outcome = answer.outcome;
    match outcome {
        Ok((version, _)) => {
            say_pairs(b"string\t", header, table, strings, answer.strings);
            say_pairs(b"contig\t", header, table, contigs, answer.contigs);
            notes::say_notes(header, table::kept(table, FORM, answer.entries), version);
            true
        }
        Err(DictionaryRefusal::Unread(_)) => false,
        Err(DictionaryRefusal::PartlyIndexed) => {
            say_refused(
                34,
                b"some lines of a dictionary have an IDX and others have none\n",
            );
            true
        }
        Err(DictionaryRefusal::NumberClash) => {
            say_refused(35, b"one ID has two numbers, or two IDs have one number\n");
            true
        }
        Err(DictionaryRefusal::SliceTooSmall) => {
            say_refused(36, b"there are more than 32,768 strings or contigs\n");
            true
        }
    }
}
