// What a line is, beside the lines before it: checked in full before anything is stored.
ghost use Rattle.std.specs.Prelude.{◌≡◌};
ghost use Rattle.rules.specs.Version.{in_force};
ghost use Rattle.records.specs.Formats.{version_of};
ghost use Rattle.entries.specs.Values.{entry_of, limits_by};
ghost use Rattle.entries.specs.Tables.{entries_in};
ghost use Rattle.header.specs.Verdicts.{imposed_of, IdJudged, FirstJudged, made_of, MeetsRead, RecordJudged, ColumnsJudged, TextJudged, Utf8Told, LineJudged};

use crate::phase::Phase;
use columns::header_line;
use columns::header_line::ColumnsRefusal;
use entries::entry::Entry;
use entries::form::Form;
use entries::kind;
use ids::scan;
use ids::scan::Clash;
use records::file_format::FileFormat;
use records::record;
use records::record::{MapRecord, Record};
use records::refusal::Refusal;
use values::{bytes, utf8};

// Where a line stands, and where it ends, without its ending.
#[derive(Clone, Copy)]
pub struct Place {
    pub start: usize,
    pub end: usize,
}

// What a line is judged by: the phase, the version imposed, the form of the entries, and whether the header is known to be ASCII.
#[derive(Clone, Copy)]
pub struct Given {
    pub phase: Phase,
    pub imposed: Option<FileFormat>,
    pub form: Form,
    pub ascii: bool,
}

// A fileformat line, with the version in force; a record, with its entry; a column line, with the number of its samples.
#[derive(Clone, Copy)]
pub enum Verdict {
    Begin(FileFormat),
    Entry(Entry),
    Columns(FileFormat, usize),
}

fn in_force(imposed: Option<FileFormat>, v: FileFormat) -> FileFormat
    ensures { version_of result ≡ in_force (imposed_of imposed) (version_of v) }
{
    match imposed {
        None => v,
        Some(w) => w,
    }
}

// The first line is read under 4.5 and must be fileformat.
fn judge_first(l: &[u8], imposed: Option<FileFormat>) -> Result<Verdict, Refusal>
    ensures { FirstJudged (imposed_of imposed) l.now result }
{
    match record::parse_record(l, FileFormat::V4_5) {
        Ok(Record::FileFormat(v)) => {
            let w = in_force(imposed, v);
            Ok(Verdict::Begin(w))
        }
        Ok(Record::Map(_)) => Err(Refusal::MissingFileFormat),
        Ok(Record::Text(_)) => Err(Refusal::MissingFileFormat),
        Err(x) => Err(x),
    }
}

// A record whose key and ID go with those before it; `new` is its entry, `prefix` its `##key=`.
fn judge_id(
    h: &[u8],
    kept: &[u64],
    form: Form,
    marks: &mut [u64],
    prefix: &[u8],
    new: Entry,
) -> Result<Verdict, Refusal>
    ensures { IdJudged (limits_by form) h.now (entries_in form kept.now) marks.old prefix.now (entry_of new) result
        marks.new }
{
    match scan::find_clash(h, kept, form, marks, prefix, new) {
        None => Ok(Verdict::Entry(new)),
        Some(Clash::TypedId) => Err(Refusal::DuplicateId),
        Some(Clash::Mixed) => Err(Refusal::MixedValues),
        Some(Clash::OtherId) => Err(Refusal::DuplicateOtherId),
    }
}

// The entry of a map that stands on the line l, at `start`.
fn map_entry(l: &[u8], form: Form, start: usize, map: MapRecord) -> Entry
    ensures { entry_of result ≡ made_of (limits_by form) start l.now map }
{
    let key = map.key;
    let id = map.id;
    let name = bytes::part(l, id.start, id.end);
    let tally = map.tally;
    Entry {
        kind: key.kind(),
        start,
        length: l.len(),
        offset: id.start,
        id_length: name.len(),
        quoted: id.quoted,
        tag: map.tag,
        key_length: form.counted(record::key_length(map.value)),
        field_count: form.counted(tally.fields),
    }
}

// What was read of the line l, which stands at `start`, as an entry.
// Its entry, and where its value stands; or a refusal.
pub fn meet_read(
    l: &[u8],
    form: Form,
    start: usize,
    read: Result<Record, Refusal>,
) -> Result<(Entry, usize), Refusal>
    ensures { MeetsRead (limits_by form) start l.now read result }
{
    match read {
        Ok(Record::FileFormat(_)) => Err(Refusal::UnexpectedFileFormat),
        Ok(Record::Map(map)) => Ok((map_entry(l, form, start, map), map.value)),
        Ok(Record::Text(value)) => {
            let key_length = form.counted(record::key_length(value));
            let new = Entry::keyed(kind::OTHER_TEXT, start, l.len(), key_length);
            Ok((new, value))
        }
        Err(x) => Err(x),
    }
}

// The one call of `judge_id`: a function that is called once is made a part of its caller, and an entry is not handed on in memory.
fn judge_record(
    h: &[u8],
    kept: &[u64],
    form: Form,
    marks: &mut [u64],
    at: Place,
    version: FileFormat,
) -> Result<Verdict, Refusal>
    ensures { RecordJudged (limits_by form) h.now (entries_in form kept.now) marks.old (version_of version) at.start at.end result
        marks.new }
{
    let l = bytes::part(h, at.start, at.end);
    match meet_read(l, form, at.start, record::read_record(l, version)) {
        Ok((new, value)) => judge_id(h, kept, form, marks, bytes::part(l, 0, value), new),
        Err(x) => Err(x),
    }
}

fn judge_columns(l: &[u8], version: FileFormat) -> Result<Verdict, Refusal>
    ensures { ColumnsJudged l.now version result }
{
    match header_line::parse_header(l) {
        Ok((_, samples)) => Ok(Verdict::Columns(version, samples)),
        Err(ColumnsRefusal::WrongColumn) => Err(Refusal::InvalidHeader),
        Err(ColumnsRefusal::DuplicateSample) => Err(Refusal::DuplicateSampleName),
    }
}

// A line of UTF-8, by its phase.
fn judge_text(
    h: &[u8],
    kept: &[u64],
    form: Form,
    marks: &mut [u64],
    at: Place,
    phase: Phase,
    imposed: Option<FileFormat>,
) -> Result<Verdict, Refusal>
    ensures { TextJudged (limits_by form) h.now (entries_in form kept.now) marks.old at.start at.end phase (imposed_of imposed)
        result marks.new }
{
    let l = bytes::part(h, at.start, at.end);
    match phase {
        Phase::Empty => judge_first(l, imposed),
        Phase::Ready(version) => {
            if bytes::starts_with(l, b"#CHROM") {
                return judge_columns(l, version);
            }
            judge_record(h, kept, form, marks, at, version)
        }
        Phase::Done(_, _) => Err(Refusal::ExpectedEof),
    }
}

// An ASCII header is not looked at line by line.
fn is_utf8(l: &[u8], ascii: bool) -> bool
    ensures { Utf8Told ascii l.now result }
{
    ascii || utf8::utf8(l)
}

// A line, by 1, 2, 3, then its grammar; `kept` are the entries before it, which are marked, and so is it if it is kept.
pub fn judge_line(
    h: &[u8],
    kept: &[u64],
    marks: &mut [u64],
    at: Place,
    given: Given,
) -> Result<Verdict, Refusal>
    ensures { LineJudged (limits_by given.form) h.now (entries_in given.form kept.now) marks.old
        given.ascii at.start at.end given.phase (imposed_of given.imposed) result marks.new }
{
    let phase = given.phase;
    let imposed = given.imposed;
    let form = given.form;
    let limits = form.limits();
    if phase.is_done() {
        return Err(Refusal::ExpectedEof);
    }
    let l = bytes::part(h, at.start, at.end);
    if limits.line < l.len() {
        return Err(Refusal::LineTooLong);
    }
    if !is_utf8(l, given.ascii) {
        return Err(Refusal::InvalidUtf8);
    }
    judge_text(h, kept, form, marks, at, phase, imposed)
}
