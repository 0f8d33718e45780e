// Why a header is refused, in a sentence on standard error.
use crate::form::FORM;
use crate::{fields, say, twice};
use lines::line;
use records::file_format::FileFormat;
use records::record;
use records::record::Record;
use records::refusal::Refusal;
use values::bytes;

fn say(text: &[u8]) {
    say::text(2, text);
    say::text(2, b"\n");
}

fn say_around(before: &[u8], name: &[u8], after: &[u8]) {
    say::text(2, before);
    say::shown(2, name);
    say(after);
}

fn say_missing(l: &[u8], name: &[u8]) {
    say::text(2, b"the ");
    say::shown(2, fields::key_of(l));
    say_around(b" line has no ", name, b"");
}

// The version that the header states.
fn stated_version(header: &[u8]) -> FileFormat {
    let first = line::next_line(header, 0);
    match record::parse_record(bytes::part(header, 0, first.end), FileFormat::V4_5) {
        Ok(Record::FileFormat(version)) => version,
        _ => FileFormat::V4_5,
    }
}

// The version in force.
fn version_of(header: &[u8], imposed: Option<FileFormat>) -> FileFormat {
    match imposed {
        None => stated_version(header),
        Some(version) => version,
    }
}

// Two bytes for each character, with a mark before them or without.
fn is_utf16(header: &[u8]) -> bool {
    header.starts_with(b"\xFF\xFE")
        || header.starts_with(b"\xFE\xFF")
        || header.starts_with(b"#\x00")
        || header.starts_with(b"\x00#")
}

fn is_marked(header: &[u8]) -> bool {
    header.starts_with(b"\xEF\xBB\xBF")
}

// 6: a line that is no record.
fn say_no_record(l: &[u8]) {
    if l.is_empty() {
        say(b"empty line");
    } else if !l.starts_with(b"##") {
        say(b"the line does not begin with ##");
    } else if l.starts_with(b"##=") {
        say(b"there is nothing between ## and =");
    } else {
        say(b"the line has no =");
    }
}

// 3 and 6, of the first line.
fn say_no_start(refusal: Refusal, header: &[u8], l: &[u8]) {
    if is_utf16(header) {
        say(b"this is UTF-16, and a header is UTF-8");
    } else if is_marked(header) {
        say(b"there is a byte order mark before the first line");
    } else if matches!(refusal, Refusal::InvalidUtf8) {
        say(b"the line is not UTF-8");
    } else {
        say::text(2, b"the fileformat line is missing: ");
        say_no_record(l);
    }
}

fn say_reason(refusal: Refusal, header: &[u8], l: &[u8], version: FileFormat) {
    match refusal {
        Refusal::ExpectedEof => say(b"a line follows the column line"),
        Refusal::LineTooLong => say(
            b"the line is longer than 16,777,215 bytes, which is a limit of this tool and not of VCF",
        ),
        Refusal::InvalidUtf8 => say(b"the line is not UTF-8"),
        Refusal::MissingFileFormat => {
            say(b"the first line is a record, but not the fileformat line")
        }
        Refusal::UnexpectedFileFormat => say(b"there is a second fileformat line"),
        Refusal::InvalidRecord => say_no_record(l),
        Refusal::InvalidFileFormat => {
            say(b"the fileformat value is not VCFv, digits, a point and digits")
        }
        Refusal::InvalidMap => fields::say_no_map(l, version),
        Refusal::InvalidField => fields::say_bad_field(l, version),
        Refusal::DuplicateTag => say(b"a field appears twice in the map, or the map has two IDs"),
        Refusal::InvalidNumber => {
            say(b"the Number is neither a count nor one of the letters allowed here")
        }
        Refusal::InvalidType => say(b"the Type is not one of those allowed here"),
        Refusal::InvalidInteger => {
            say(b"the IDX or length is not a number of at most 18446744073709551615")
        }
        Refusal::MissingId => say_missing(l, b"ID"),
        Refusal::MissingNumber => say_missing(l, b"Number"),
        Refusal::MissingType => say_missing(l, b"Type"),
        Refusal::MissingDescription => say_missing(l, b"Description"),
        Refusal::DefinitionMismatch => fields::say_mismatch(l, version),
        Refusal::DuplicateId | Refusal::DuplicateOtherId => {
            twice::say_id_twice(header, l, version)
        }
        Refusal::MixedValues => say_around(
            b"the key ",
            fields::key_of(l),
            b" has text in one line and a map in another",
        ),
        Refusal::InvalidHeader => say(b"a column is wrong or missing"),
        Refusal::DuplicateSampleName => twice::say_name_twice(l),
        Refusal::TableFull => say(
            b"the header has more than 1,000,000 entries, which is a limit of this tool and not of VCF",
        ),
        Refusal::Empty => say(b"the input is empty"),
        Refusal::MissingHeader => say(b"the column line is missing"),
        Refusal::HeaderTooLong => say(
            b"the header is longer than 16,777,215 bytes, which is a limit of this tool and not of VCF",
        ),
        Refusal::FormTooLong => say(b"the house form is longer than the output"),
        Refusal::InvalidEntry => say(b"there is no such entry, ID or field"),
    }
}

fn is_start(refusal: Refusal, start: usize) -> bool {
    start == 0 && matches!(refusal, Refusal::InvalidUtf8 | Refusal::InvalidRecord)
}

// The line that was refused begins at `start`.
pub fn say_why(refusal: Refusal, header: &[u8], imposed: Option<FileFormat>, start: usize) {
    say::tell(b"n");
    let found = line::next_line(header, start);
    let l = bytes::part(header, start, found.end);
    if is_start(refusal, start) {
        say_no_start(refusal, header, l);
    } else {
        say_reason(refusal, header, l, version_of(header, imposed));
    }
}

// The same where a form was asked for: it may be the form, or a line of it, that is too long, and not the header.
pub fn say_why_no_form(refusal: Refusal, header: &[u8], imposed: Option<FileFormat>, start: usize) {
    let limits = FORM.limits();
    let found = line::next_line(header, start);
    let l = bytes::part(header, start, found.end);
    match refusal {
        Refusal::LineTooLong if l.len() <= limits.line => {
            say::tell(b"n");
            say(
                b"a line of the house form is longer than 16,777,215 bytes, which is a limit of this tool and not of VCF",
            );
        }
        Refusal::HeaderTooLong if header.len() <= limits.header => {
            say::tell(b"n");
            say(
                b"the house form is longer than 16,777,215 bytes, which is a limit of this tool and not of VCF",
            );
        }
        _ => say_why(refusal, header, imposed, start),
    }
}
