// Entries turned from one form into the other, in another lent table. Both tables stay as they were if that is refused.
ghost use Rattle.std.specs.Prelude.{◌≡◌};
ghost use Rattle.rules.specs.Entry.{with_counts};
ghost use Rattle.records.specs.Formats.{version_of};
ghost use Rattle.entries.specs.Values.{entry_of};
ghost use Rattle.entries.specs.Shown.{entry_meant};
ghost use Rattle.turning.specs.Turning.{turn_number, to_first, to_second, target_of, source_of, way_of, raised, turned_at, fits_in, judged_as, Copies, turn_answer, turn_table};

use alone::read;
use alone::read::Alone;
use entries::entry::Entry;
use entries::form::Form;
use entries::{kind, part, shown, table};
use records::file_format::FileFormat;
use records::record;

pub type TurnOutcome = Result<(), TurnRefusal>;

#[derive(Clone, Copy)]
pub enum TurnRefusal {
    NotWellFormed,
    TooLarge,
    TableFull,
}

// How many entries were turned; none if the call is refused.
#[derive(Clone, Copy)]
pub struct TurnAnswer {
    pub outcome: TurnOutcome,
    pub entries: usize,
}

// Document 02's number; 0 if the entries are turned.
pub fn number(outcome: TurnOutcome) -> u64
    ensures { result ≡ turn_number outcome }
{
    match outcome {
        Ok(()) => 0,
        Err(TurnRefusal::NotWellFormed) => 29,
        Err(TurnRefusal::TooLarge) => 32,
        Err(TurnRefusal::TableFull) => 24,
    }
}

// Into which form: the second one tells of a line's key and fields, so the line is read again under a version.
#[derive(Clone, Copy)]
enum Into {
    First,
    Second(FileFormat),
}

impl Into {
    fn target(self) -> Form
        ensures { result ≡ target_of (way_of self) }
    {
        match self {
            Into::First => Form::First,
            Into::Second(_) => Form::Second,
        }
    }

    fn source(self) -> Form
        ensures { result ≡ source_of (way_of self) }
    {
        match self {
            Into::First => Form::Second,
            Into::Second(_) => Form::First,
        }
    }
}

// Of all entries of a table: they fit a form, one does not, or one is refused.
#[derive(Clone, Copy)]
enum Judged {
    Fit,
    Unfit,
    Malformed,
}

fn with_counts(e: Entry, key_length: usize, field_count: usize) -> Entry
    ensures { entry_of result ≡ with_counts (record { key_length = key_length; field_count = field_count }) (entry_of e) }
{
    Entry {
        key_length,
        field_count,
        ..e
    }
}

// An entry in the second form.
fn raise(h: &[u8], e: Entry, version: FileFormat) -> Option<Entry>
    ensures { entry_meant result ≡ raised h.now (version_of version) (entry_of e) }
{
    if kind::OTHER_TEXT < e.kind {
        return Some(with_counts(e, 0, 0));
    }
    match read::read_alone(part::line_part(h, e), e.kind, version) {
        Some(Alone::Map(map)) => {
            let tally = map.tally;
            Some(with_counts(e, record::key_length(map.value), tally.fields))
        }
        Some(Alone::Plain(key_length)) => Some(with_counts(e, key_length, 0)),
        None => None,
    }
}

// The entry of this number in the other form; none if it or its line is refused.
fn turned(h: &[u8], source: &[u64], n: usize, into: Into) -> Option<Entry>
    ensures { entry_meant result ≡ turned_at (way_of into) h.now source.now n }
{
    let Some(e) = shown::entry_at(h, source, into.source(), n) else {
        return None;
    };
    match into {
        Into::First => Some(with_counts(e, 0, 0)),
        Into::Second(version) => raise(h, e, version),
    }
}

// Whether the numbers of an entry fit the bits that the form has for them, which hold no more than its limits.
fn fits(form: Form, e: Entry) -> bool
    ensures { result ≡ fits_in form (entry_of e) }
{
    let limits = form.limits();
    e.start <= limits.header
        && e.length <= limits.line
        && e.offset <= limits.line
        && e.id_length <= limits.line
}

// An entry that is refused comes before one that doesn't fit, wherever they stand.
fn judge(h: &[u8], source: &[u64], into: Into) -> Judged
    ensures { result ≡ judged_as (way_of into) h.now source.now }
{
    let mut fit = true;
    for n in 0..table::count(source, into.source()) {
        let Some(e) = turned(h, source, n, into) else {
            return Judged::Malformed;
        };
        fit = fit && fits(into.target(), e);
    }
    if fit { Judged::Fit } else { Judged::Unfit }
}

// The entries of one table in another, as far as there is room.
fn copy(h: &[u8], source: &[u64], target: &mut [u64], into: Into)
    ensures { Copies (way_of into) h.now source.now target.old target.new }
{
    for n in 0..table::count(source, into.source()) {
        let Some(e) = turned(h, source, n, into) else {
            return;
        };
        if !table::put(target, into.target(), n, e) {
            return;
        }
    }
}

fn refuse(outcome: TurnOutcome) -> TurnAnswer
    ensures { result ≡ record { outcome = outcome; entries = 0 } }
{
    TurnAnswer {
        outcome,
        entries: 0,
    }
}

fn turn(h: &[u8], source: &[u64], target: &mut [u64], into: Into) -> TurnAnswer
    ensures answer { result ≡ turn_answer (way_of into) h.now source.now target.old }
    ensures table { target.new ≡ turn_table (way_of into) h.now source.now target.old }
{
    match judge(h, source, into) {
        Judged::Malformed => refuse(Err(TurnRefusal::NotWellFormed)),
        Judged::Unfit => refuse(Err(TurnRefusal::TooLarge)),
        Judged::Fit => {
            let count = table::count(source, into.source());
            if table::count(target, into.target()) < count {
                return refuse(Err(TurnRefusal::TableFull));
            }
            copy(h, source, target, into);
            TurnAnswer {
                outcome: Ok(()),
                entries: count,
            }
        }
    }
}

// The entries of a table of the first form, in one of the second. The version says how their lines are read.
pub fn to_second(
    header: &[u8],
    first: &[u64],
    second: &mut [u64],
    version: FileFormat,
) -> TurnAnswer
    ensures answer { result ≡ turn_answer (to_second (version_of version)) header.now first.now second.old }
    ensures table { second.new ≡ turn_table (to_second (version_of version)) header.now first.now second.old }
{
    turn(header, first, second, Into::Second(version))
}

// The entries of a table of the second form, in one of the first.
pub fn to_first(header: &[u8], second: &[u64], first: &mut [u64]) -> TurnAnswer
    ensures answer { result ≡ turn_answer to_first header.now second.now first.old }
    ensures table { first.new ≡ turn_table to_first header.now second.now first.old }
{
    turn(header, second, first, Into::First)
}
