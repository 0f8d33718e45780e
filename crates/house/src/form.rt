// The house form of a header: its size is found first, and it is written if it may stand and fits; and whether a header is in house form,
// told by measuring it, which holds the form against the header.
ghost use Rattle.std.specs.Prelude.{◌≡◌, length};
ghost use Rattle.rules.specs.House.{house};
ghost use Rattle.records.specs.Formats.{version_of};
ghost use Rattle.entries.specs.Values.{limits_of, limits_by};
ghost use Rattle.entries.specs.Tables.{entries_in};
ghost use Rattle.entries.specs.Notes.{bare};
ghost use Rattle.house.specs.Keys.{AreFormed};
ghost use Rattle.house.specs.Sizes.{SizesForm};
ghost use Rattle.house.specs.Forms.{column_line, PutsRecords, PutsForm, measured_as, WritesForm, ComparesForm};
ghost use Rattle.header.specs.Verdicts.{imposed_of};
ghost use Rattle.house.specs.Answers.{refused_answer, form_answered, AnswersForm, HouseCall};
ghost use Rattle.house.specs.Verdicts.{told_answer, verdict, AnswersComparison, IsHouseCall};

use crate::progress::Progress;
use crate::{keys, progress, sizes};
use entries::form::Form;
use entries::limits::Limits;
use entries::{kind, part, table};
use header::parser;
use header::parser::{Outcome, ReadAnswer};
use records::file_format::FileFormat;
use records::refusal::Refusal;
use values::sink::Sink;

// The outcome, the line and its start, how many entries the table keeps, and the form's length, 0 if none was written.
#[derive(Clone, Copy)]
pub struct HouseAnswer {
    pub outcome: Outcome,
    pub line: usize,
    pub start: usize,
    pub entries: usize,
    pub length: usize,
}

// The outcome, the line and its start, and how many entries the table keeps, as `house_form` gives them where the output is large enough;
// whether the header is its house form, and if it is accepted and is not, the first place where the two differ, or the shorter one's length.
#[derive(Clone, Copy)]
pub struct IsHouseAnswer {
    pub outcome: Outcome,
    pub line: usize,
    pub start: usize,
    pub entries: usize,
    pub holds: bool,
    pub differs: usize,
}

// What came of a form: its length; or it is too long, or a line of it, with the line's number and start, or it does not fit.
type FormOutcome = Result<usize, FormRefusal>;

#[derive(Clone, Copy)]
enum FormRefusal {
    TooLong,
    LineTooLong(usize, usize),
    NoRoom,
}

// What came of a form that was held against the header, and the first place where it is not the header: the largest number if it all is.
#[derive(Clone, Copy)]
struct Compared {
    outcome: FormOutcome,
    differs: usize,
}

// The column line, no bytes if there is none.
fn column_line<'a>(h: &'a [u8], kept: &[u64], form: Form) -> &'a [u8]
    ensures { result.now ≡ column_line h.now (entries_in form kept.now) }
{
    for k in 0..table::count(kept, form) {
        let e = table::get(kept, form, k);
        if e.kind == kind::COLUMNS {
            return part::line_part(h, e);
        }
    }
    &h[..0]
}

// The typed keys, then the others.
fn put_records(
    h: &[u8],
    kept: &mut [u64],
    form: Form,
    version: FileFormat,
    out: &mut [u8],
    given: &[u8],
    s: Progress,
) -> Progress
    requires bare { bare kept.old ≡ kept.old }
    ensures lines { PutsRecords (version_of version) h.now (entries_in form kept.old) given.now out.old s result out.new }
    ensures table { kept.new ≡ kept.old }
{
    let typed = keys::put_typed(h, kept, form, version, out, given, s);
    keys::put_others(h, kept, form, version, out, given, typed)
}

// All lines; `kept` are the header's entries. `formed`: the line of each stands as the form writes it.
fn put_form(
    h: &[u8],
    kept: &mut [u64],
    form: Form,
    version: FileFormat,
    limit: usize,
    formed: bool,
    out: &mut [u8],
    given: &[u8],
) -> Progress
    requires bare { bare kept.old ≡ kept.old }
    ensures lines { PutsForm limit formed (version_of version) h.now (entries_in form kept.old) given.now out.old result out.new }
    ensures table { kept.new ≡ kept.old }
{
    let begun = Progress {
        limit,
        next: Sink {
            at: 0,
            differs: 0xFFFF_FFFF_FFFF_FFFF,
        },
        lines: 0,
        long: 0,
        start: 0,
        formed,
    };
    let formatted = progress::put_version(version, out, given, begun);
    let recorded = put_records(h, kept, form, version, out, given, formatted);
    progress::put_plain(column_line(h, kept, form), out, given, recorded)
}

// What comes of a form that was measured, where `room` bytes are lent for it.
fn outcome_of(measured: Progress, limits: Limits, room: usize) -> FormOutcome
    ensures { result ≡ measured_as (limits_of limits) room measured }
{
    let end = measured.next;
    let size = end.at;
    let long = measured.long;
    if limits.header < size {
        return Err(FormRefusal::TooLong);
    }
    if 0 < long {
        return Err(FormRefusal::LineTooLong(long, measured.start));
    }
    if room < size {
        return Err(FormRefusal::NoRoom);
    }
    Ok(size)
}

// The size of a form whose records take so many bytes; the largest number if one of its other lines is too long.
fn size_form(columns: &[u8], version: FileFormat, limit: usize, records: usize) -> usize
    ensures { SizesForm limit (version_of version) columns.now records result }
{
    let mut nothing = [0u8; 0];
    let begun = Progress {
        limit,
        next: Sink { at: 0, differs: 0 },
        lines: 0,
        long: 0,
        start: 0,
        formed: true,
    };
    let formatted = progress::put_version(version, &mut nothing, b"", begun);
    let ended = progress::put_plain(columns, &mut nothing, b"", formatted);
    if 0 < ended.long {
        return 0xFFFF_FFFF_FFFF_FFFF;
    }
    let next = ended.next;
    progress::count_on(next.at, records)
}

// The form is held against the header, and written nowhere; the header limit is room enough for it.
fn compare_form(
    h: &[u8],
    kept: &mut [u64],
    form: Form,
    version: FileFormat,
    formed: bool,
) -> Compared
    requires formed { AreFormed (version_of version) h.now (entries_in form kept.old) formed }
    requires bare { bare kept.old ≡ kept.old }
    ensures lines { ComparesForm (limits_by form) (version_of version) h.now (entries_in form kept.old) result }
    ensures table { kept.new ≡ kept.old }
{
    let limits = form.limits();
    let mut nothing = [0u8; 0];
    let measured = put_form(h, kept, form, version, limits.line, formed, &mut nothing, h);
    let outcome = outcome_of(measured, limits, limits.header);
    let end = measured.next;
    Compared {
        outcome,
        differs: end.differs,
    }
}

// Nothing is written unless the whole form may stand and fits. Its size is a sum over the lines as they stand in the header, so that it is
// put once, in its own order; only where it or a line of it is too long is it put nowhere, to tell which.
fn write_form(
    h: &[u8],
    kept: &mut [u64],
    form: Form,
    version: FileFormat,
    out: &mut [u8],
) -> FormOutcome
    requires bare { bare kept.old ≡ kept.old }
    ensures lines { WritesForm (limits_by form) (version_of version) h.now (entries_in form kept.old) out.old result
        out.new }
    ensures table { kept.new ≡ kept.old }
{
    let limits = form.limits();
    let sum = sizes::sum_lines(h, kept, form, version, limits.line);
    let formed = sum.formed;
    let columns = column_line(h, kept, form);
    let size = size_form(columns, version, limits.line, sum.size);
    if limits.header < size {
        let compared = compare_form(h, kept, form, version, formed);
        return compared.outcome;
    }
    if out.len() < size {
        return Err(FormRefusal::NoRoom);
    }
    put_form(h, kept, form, version, limits.line, formed, out, b"");
    Ok(size)
}

fn refuse(x: Refusal, line: usize, start: usize, entries: usize) -> HouseAnswer
    ensures { result ≡ refused_answer x line start entries }
{
    HouseAnswer {
        outcome: Err(x),
        line,
        start,
        entries,
        length: 0,
    }
}

// The answer after an accepted reading.
fn answer(read: ReadAnswer, written: FormOutcome) -> HouseAnswer
    ensures { result ≡ form_answered read written }
{
    let entries = read.entries;
    let outcome = read.outcome;
    match written {
        Ok(length) => HouseAnswer {
            outcome,
            line: read.line,
            start: read.start,
            entries,
            length,
        },
        Err(FormRefusal::TooLong) => refuse(Refusal::HeaderTooLong, 0, 0, entries),
        Err(FormRefusal::LineTooLong(line, start)) => refuse(
            Refusal::LineTooLong,
            line,
            start,
            entries,
        ),
        Err(FormRefusal::NoRoom) => refuse(Refusal::FormTooLong, 0, 0, entries),
    }
}

// The form of a header that was read and accepted; `kept` are its entries.
fn answer_accepted(
    h: &[u8],
    kept: &mut [u64],
    form: Form,
    read: ReadAnswer,
    version: FileFormat,
    out: &mut [u8],
) -> HouseAnswer
    requires bare { bare kept.old ≡ kept.old }
    ensures lines { AnswersForm (limits_by form) read version h.now (entries_in form kept.old) out.old result out.new }
    ensures table { kept.new ≡ kept.old }
{
    let written = write_form(h, kept, form, version, out);
    answer(read, written)
}

// Reads a header into the table and writes its house form, from the output's first byte on; nothing is written if it is refused.
pub fn house_form(
    header: &[u8],
    imposed: Option<FileFormat>,
    form: Form,
    table: &mut [u64],
    out: &mut [u8],
) -> HouseAnswer
    ensures { HouseCall form (imposed_of imposed) header.now table.old out.old result table.new out.new }
{
    let read = parser::read(header, imposed, form, table);
    let entries = read.entries;
    let outcome = read.outcome;
    match outcome {
        Err(x) => refuse(x, read.line, read.start, entries),
        Ok((version, _)) => {
            let n = form.words() * entries;
            answer_accepted(header, &mut table[..n], form, read, version, out)
        }
    }
}

fn told(answered: HouseAnswer, holds: bool, differs: usize) -> IsHouseAnswer
    ensures { result ≡ told_answer answered holds differs }
{
    let outcome = answered.outcome;
    IsHouseAnswer {
        outcome,
        line: answered.line,
        start: answered.start,
        entries: answered.entries,
        holds,
        differs,
    }
}

// The verdict on a header of `size` bytes; `differs` is the first place within the form where the two differ, if there is one.
fn judge(answered: HouseAnswer, size: usize, differs: usize) -> IsHouseAnswer
    ensures { result ≡ verdict answered size differs }
{
    let outcome = answered.outcome;
    let length = answered.length;
    let Ok((_, _)) = outcome else {
        return told(answered, false, 0);
    };
    if differs < length {
        return told(answered, false, differs);
    }
    if length == size {
        return told(answered, true, 0);
    }
    told(answered, false, length)
}

// The verdict on a header that was read and accepted; `kept` are its entries.
fn judge_accepted(
    h: &[u8],
    kept: &mut [u64],
    form: Form,
    read: ReadAnswer,
    version: FileFormat,
) -> IsHouseAnswer
    requires bare { bare kept.old ≡ kept.old }
    ensures lines { AnswersComparison (limits_by form) read version h.now (entries_in form kept.old) result }
    ensures table { kept.new ≡ kept.old }
{
    let formed = keys::are_formed(h, kept, form, version);
    let compared = compare_form(h, kept, form, version, formed);
    let written = compared.outcome;
    judge(answer(read, written), h.len(), compared.differs)
}

// Reads a header into the table and says whether it is its own house form, and if not, where the two first differ.
pub fn is_house(
    header: &[u8],
    imposed: Option<FileFormat>,
    form: Form,
    table: &mut [u64],
) -> IsHouseAnswer
    ensures { IsHouseCall form (imposed_of imposed) header.now table.old result table.new }
{
    let read = parser::read(header, imposed, form, table);
    let entries = read.entries;
    let outcome = read.outcome;
    match outcome {
        Err(x) => told(refuse(x, read.line, read.start, entries), false, 0),
        Ok((version, _)) => {
            let n = form.words() * entries;
            judge_accepted(header, &mut table[..n], form, read, version)
        }
    }
}
