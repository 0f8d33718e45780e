// The words of what is asked, which spaces part.
use crate::text;
use entries::form::Form;
use records::file_format;
use records::file_format::FileFormat;
use values::integer;

pub fn word(asked: &[u8], n: usize) -> &[u8] {
    text::nth(asked, b' ', n)
}

// A first word that ends in 2 names the second form.
pub fn form(asked: &[u8]) -> Form {
    if word(asked, 0).ends_with(b"2") {
        Form::Second
    } else {
        Form::First
    }
}

// Whether this is asked, in either form.
pub fn is_asked(asked: &[u8], what: &[u8]) -> bool {
    matches!(word(asked, 0).strip_prefix(what), Some(b"" | b"2"))
}

// A word that is no version imposes none.
pub fn imposed(asked: &[u8], n: usize) -> Option<FileFormat> {
    imposed_by(word(asked, n))
}

pub fn version(asked: &[u8], n: usize) -> FileFormat {
    match file_format::parse_file_format(word(asked, n)) {
        Some(version) => version,
        None => FileFormat::V4_3,
    }
}

pub fn number(asked: &[u8], n: usize) -> Option<(u64, bool)> {
    integer::parse_u64(word(asked, n))
}

pub fn size(asked: &[u8], n: usize) -> usize {
    number_in(word(asked, n)) as usize
}

// The same of words that are at hand: 0 where there is no number.
pub fn number_in(word: &[u8]) -> u64 {
    match integer::parse_u64(word) {
        Some((n, _)) => n,
        None => 0,
    }
}

pub fn imposed_by(word: &[u8]) -> Option<FileFormat> {
    match file_format::parse_file_format(word) {
        Some(version) => Some(version),
        None => None,
    }
}

pub fn form_by(word: &[u8]) -> Form {
    match word {
        b"2" => Form::Second,
        _ => Form::First,
    }
}
