// A line of a dictionary, as its entry tells it.
ghost use Rattle.std.specs.Prelude.{◌≡◌};
ghost use Rattle.entries.specs.Values.{entry_of};
ghost use Rattle.dictionary.specs.Lines.{holds, fields_place, idx_meant, entry_idx, is_implied, is_idx, idx_at};

use entries::entry::Entry;
use entries::{kind, part};
use records::field;
use values::{bytes, integer, string};

// FILTER, INFO and FORMAT lines; contig lines.
#[derive(Clone, Copy)]
pub enum Dictionary {
    Strings,
    Contigs,
}

// Whether lines of this kind belong to the dictionary.
pub fn has_kind(dictionary: Dictionary, kind: u8) -> bool
    ensures { result ≡ holds dictionary kind }
{
    match dictionary {
        Dictionary::Strings => kind::INFO <= kind && kind <= kind::FORMAT,
        Dictionary::Contigs => kind == kind::CONTIG,
    }
}

// Where the first field stands in a line of this kind, after `##INFO=<` or a prefix of ten bytes.
fn fields_start(kind: u8) -> usize
    ensures { result ≡ fields_place kind }
{
    if kind == kind::INFO { 8 } else { 10 }
}

// The IDX that a line carries.
pub fn line_idx(h: &[u8], e: Entry) -> Option<u64>
    ensures { idx_meant result ≡ entry_idx h.now (entry_of e) }
{
    let line = part::line_part(h, e);
    let start = fields_start(e.kind);
    let Some(text) = field::find_field(line, start, false, b"IDX") else {
        return None;
    };
    let Some((n, _)) = integer::parse_u64(bytes::part(line, text.start, text.end)) else {
        return None;
    };
    Some(n)
}

// Whether an entry carries this number.
pub fn has_idx(h: &[u8], e: Entry, n: u64) -> bool
    ensures { result ≡ is_idx n (idx_at h.now e) }
{
    let Some(m) = line_idx(h, e) else {
        return false;
    };
    m == n
}

// Whether the ID stands in the dictionary unwritten.
pub fn is_implied(h: &[u8], e: Entry, dictionary: Dictionary) -> bool
    ensures { result ≡ is_implied h.now dictionary (entry_of e) }
{
    match dictionary {
        Dictionary::Strings => string::same_meaning(part::id_part(h, e), e.quoted, b"PASS", false),
        Dictionary::Contigs => false,
    }
}
