// What appears twice in a header, in a sentence on standard error.
use crate::{fields, say};
use lines::line;
use records::file_format::FileFormat;
use records::record;
use records::record::Record;
use values::{bytes, string};

// Whether a line is a map with this key and this ID.
fn is_map_of(l: &[u8], version: FileFormat, key: &[u8], id: &[u8], quoted: bool) -> bool {
    let Ok(Record::Map(map)) = record::parse_record(l, version) else {
        return false;
    };
    let own = map.id;
    fields::key_of(l) == key
        && string::same_meaning(bytes::part(l, own.start, own.end), own.quoted, id, quoted)
}

// The number of the first line with this key and this ID. No header has more lines than bytes.
fn first_line(header: &[u8], version: FileFormat, key: &[u8], id: &[u8], quoted: bool) -> u64 {
    let mut at = 0;
    for n in 0..header.len() {
        let found = line::next_line(header, at);
        let l = bytes::part(header, at, found.end);
        if is_map_of(l, version, key, id, quoted) {
            return n as u64 + 1;
        }
        at = found.next;
    }
    0
}

fn say_id(header: &[u8], version: FileFormat, l: &[u8], id: &[u8], quoted: bool) {
    let key = fields::key_of(l);
    say::text(2, b"the ID ");
    say::shown(2, id);
    say::text(2, b" appears twice among the ");
    say::shown(2, key);
    say::numbered(
        2,
        b" lines, first in line ",
        first_line(header, version, key, id, quoted),
    );
    say::text(2, b"\n");
}

// 19 and 21, of the second of two lines with one ID.
pub fn say_id_twice(header: &[u8], l: &[u8], version: FileFormat) {
    let Ok(Record::Map(map)) = record::parse_record(l, version) else {
        say::text(2, b"an ID appears twice\n");
        return;
    };
    let id = map.id;
    let name = bytes::part(l, id.start, id.end);
    say_id(header, version, l, name, id.quoted);
}

// Whether one of the first n names, which tabs part, is this one.
// Kept: `bytes::same`, from the last byte on: with `==` 6,000 names of which two are the same take 33 % longer.
fn stands_before(names: &[u8], n: usize, name: &[u8]) -> bool {
    names
        .split(|b| *b == b'\t')
        .take(n)
        .any(|other| bytes::same(other, name))
}

// 23: the first name in the column line that stands before it too. The names follow these columns.
pub fn say_name_twice(l: &[u8]) {
    let columns = b"#CHROM\tPOS\tID\tREF\tALT\tQUAL\tFILTER\tINFO\tFORMAT\t";
    let names = bytes::part(l, columns.len(), l.len());
    for (n, name) in names.split(|b| *b == b'\t').enumerate() {
        if stands_before(names, n, name) {
            say::text(2, b"the sample name \"");
            say::shown(2, name);
            say::text(2, b"\" appears twice\n");
            return;
        }
    }
}
