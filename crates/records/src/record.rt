// A record: `##`, a key of one byte or more up to the first `=`, a value.
ghost use Rattle.std.specs.Prelude.{◌-◌, ◌≡◌, true, drop};
ghost use Rattle.values.specs.Bytes.{ascii, starts};
ghost use Rattle.rules.specs.Version.{read_version};
ghost use Rattle.records.specs.Formats.{version_of};
ghost use Rattle.records.specs.Records.{KeyedIs, version_record, ParsesRecord};

use crate::file_format::FileFormat;
use crate::key::MapKey;
use crate::map::Tally;
use crate::refusal::Refusal;
use crate::{file_format, key, quick, value};
use values::bytes;
use values::cursor::Cursor;
use values::string::Text;

// The key, and past its `=`.
#[derive(Clone, Copy)]
pub enum RecordKey {
    FileFormat(Cursor),
    Map(MapKey, Cursor),
}

// A map: its key, where its value stands, its ID and which name stands for that, and what its fields tell together.
#[derive(Clone, Copy)]
pub struct MapRecord {
    pub key: MapKey,
    pub value: usize,
    pub id: Text,
    pub tag: u8,
    pub tally: Tally,
}

// A text has the place of its value.
#[derive(Clone, Copy)]
pub enum Record {
    FileFormat(FileFormat),
    Map(MapRecord),
    Text(usize),
}

// The length of the key before a value that stands here.
pub fn key_length(value: usize) -> usize
    ensures { result ≡ value - 3 }
{
    if value < 3 {
        return 0;
    }
    value - 3
}

fn consume_prefix(s: &[u8]) -> bool
    ensures { result ≡ starts (ascii "##") s.now }
{
    bytes::starts_with(s, b"##")
}

// The key after the prefix.
fn parse_key(s: &[u8]) -> Option<RecordKey>
    ensures { starts (ascii "##") s.now ≡ true → KeyedIs s.now result }
{
    let end = bytes::find(s, 2, b'=');
    if end == 2 || s.len() <= end {
        return None;
    }
    let name = bytes::part(s, 2, end);
    let next = Cursor { at: end + 1 };
    if bytes::same(name, b"fileformat") {
        return Some(RecordKey::FileFormat(next));
    }
    Some(RecordKey::Map(key::map_key_of(name), next))
}

// The value of a fileformat line.
fn parse_version(s: &[u8], c: Cursor) -> Result<Record, Refusal>
    ensures { result ≡ version_record (read_version (drop c.at s.now)) }
{
    let value = bytes::part(s, c.at, s.len());
    let Some(version) = file_format::parse_file_format(value) else {
        return Err(Refusal::InvalidFileFormat);
    };
    Ok(Record::FileFormat(version))
}

pub fn parse_record(s: &[u8], version: FileFormat) -> Result<Record, Refusal>
    ensures { ParsesRecord (version_of version) s.now result }
{
    if !consume_prefix(s) {
        return Err(Refusal::InvalidRecord);
    }
    match parse_key(s) {
        Some(RecordKey::FileFormat(next)) => parse_version(s, next),
        Some(RecordKey::Map(key, next)) => match value::parse_value(s, next, key, version) {
            Ok(Some((id, tag, tally))) => Ok(Record::Map(MapRecord {
                key,
                value: next.at,
                id,
                tag,
                tally,
            })),
            Ok(None) => Ok(Record::Text(next.at)),
            Err(x) => Err(x),
        },
        None => Err(Refusal::InvalidRecord),
    }
}

// As `parse_record`, and quicker where the record has one or two bare fields.
pub fn read_record(s: &[u8], version: FileFormat) -> Result<Record, Refusal>
    ensures { ParsesRecord (version_of version) s.now result }
{
    let Some((contig, value, end, fields)) = quick::read_quick(s) else {
        return parse_record(s, version);
    };
    Ok(Record::Map(MapRecord {
        key: quick::quick_key(contig),
        value,
        id: Text {
            start: value + 4,
            end,
            quoted: false,
        },
        tag: 0,
        tally: Tally { odd: false, fields },
    }))
}
