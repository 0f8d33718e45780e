// What the table of reserved IDs asks of a line, in words.
use crate::say;
use records::file_format::FileFormat;
use records::number::{Number, ValueType};
use records::{definition, key};

// A letter of one byte has a blank behind it.
fn say_letter(a: u8, b: u8) {
    if b == b' ' {
        say::text(2, &[a]);
    } else {
        say::text(2, &[a, b]);
    }
}

fn say_number(number: Number) {
    match number {
        Number::Count(n) => say::decimal(2, n),
        Number::Letter(a, b) => say_letter(a, b),
    }
}

fn say_type(kind: ValueType) {
    match kind {
        ValueType::Integer => say::text(2, b"Integer"),
        ValueType::Float => say::text(2, b"Float"),
        ValueType::Flag => say::text(2, b"Flag"),
        ValueType::Character => say::text(2, b"Character"),
        ValueType::String => say::text(2, b"String"),
    }
}

// The Number and Type of an ID under a key, in a version.
pub fn say_asked(version: FileFormat, name: &[u8], id: &[u8], quoted: bool) {
    match definition::definition_of(version, key::map_key_of(name), id, quoted) {
        Some((number, kind)) => {
            say::text(2, b"Number=");
            say_number(number);
            say::text(2, b" and Type=");
            say_type(kind);
        }
        None => say::text(2, b"something else"),
    }
}
