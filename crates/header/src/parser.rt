// The line machine, and the reading of a whole header.
ghost use Rattle.std.specs.Prelude.{◌≡◌, true, ◌≤◌, length};
ghost use Rattle.header.specs.Verdicts.{imposed_of};
ghost use Rattle.header.specs.Steps.{start_spot, fits};
ghost use Rattle.header.specs.declared.verdict.Verdict.TheVariants.{Begin, Columns};
ghost use Rattle.header.specs.Parsers.{answer_means, ended_at, refused_as, spot_in, Bounds, KeepsLine, Parses, Begins, BeginsMarked, ReadsOn, ReadCall};
ghost use Rattle.header.specs.Parts.{BeginsParts, MayPart};

use crate::phase::Phase;
use crate::verdict::{Given, Place, Verdict};
use crate::{ahead, verdict};
use columns::header_line;
use entries::entry::Entry;
use entries::form::Form;
use entries::{formed, kind, table};
use lines::line;
use records::file_format::FileFormat;
use records::refusal::Refusal;
use values::{bytes, utf8};

// What a header is found to be: accepted, with the version in force and the number of samples, or refused.
pub type Outcome = Result<(FileFormat, usize), Refusal>;

// The outcome, the line and its start, and how many entries the table keeps.
#[derive(Clone, Copy)]
pub struct ReadAnswer {
    pub outcome: Outcome,
    pub line: usize,
    pub start: usize,
    pub entries: usize,
}

// How far a header is read: the phase, how many lines were read, where the next one begins, and how many entries were kept.
#[derive(Clone, Copy)]
pub struct Parser {
    pub phase: Phase,
    pub line: usize,
    pub at: usize,
    pub count: usize,
}

// How far it is read after some lines: all of them, or up to one that is refused.
pub type Advance = Result<Parser, (Parser, Refusal)>;

// The version imposed, the form of the entries, and whether the header is known to be ASCII.
#[derive(Clone, Copy)]
struct Options {
    imposed: Option<FileFormat>,
    form: Form,
    ascii: bool,
}

impl Parser {
    // Before the first line.
    pub fn new() -> Parser
        ensures { spot_in result ≡ start_spot }
    {
        Parser {
            phase: Phase::Empty,
            line: 0,
            at: 0,
            count: 0,
        }
    }

    // Whether reading can go on from here, in a header of `size` bytes with its entries in this table.
    pub fn fits(self, form: Form, size: usize, table: &[u64]) -> bool
        ensures { result ≡ fits form size table.now (spot_in self) }
    {
        let limits = form.limits();
        size <= limits.header
            && self.count <= table::count(table, form)
            && self.at <= size
            && self.line <= self.at
    }

    // As `keep`, where the line is the fileformat line.
    fn keep_begun(
        self,
        h: &[u8],
        end: usize,
        next: usize,
        v: FileFormat,
        table: &mut [u64],
        form: Form,
    ) -> Result<Parser, Refusal>
        requires { Bounds form h.now table.old self }
        ensures { KeepsLine form self h.now end next (Ok (Begin v)) table.old result table.new }
    {
        let start = self.at;
        let l = bytes::part(h, start, end);
        let entry = Entry::keyed(kind::FILE_FORMAT, start, l.len(), form.counted(10));
        if !table::put(table, form, self.count, entry) {
            return Err(Refusal::TableFull);
        }
        let line = self.line + 1;
        let count = self.count + 1;
        Ok(Parser {
            phase: Phase::Ready(v),
            line,
            at: next,
            count,
        })
    }

    // As `keep`, where the line is the column line.
    fn keep_columns(
        self,
        h: &[u8],
        end: usize,
        next: usize,
        v: FileFormat,
        samples: usize,
        table: &mut [u64],
        form: Form,
    ) -> Result<Parser, Refusal>
        requires { Bounds form h.now table.old self }
        ensures { KeepsLine form self h.now end next (Ok (Columns v samples)) table.old result table.new }
    {
        let count = self.count;
        if table::count(table, form) - count <= samples {
            return Err(Refusal::TableFull);
        }
        header_line::write_columns(h, self.at, end, count, table, form);
        let line = self.line + 1;
        let columns = count + 1;
        let all = columns + samples;
        Ok(Parser {
            phase: Phase::Done(v, samples),
            line,
            at: next,
            count: all,
        })
    }

    // The state after the line that stands from `at` to `end` and whose successor begins at `next`; its entries are stored if there is
    // room for all of them.
    fn keep(
        self,
        h: &[u8],
        end: usize,
        next: usize,
        verdict: Result<Verdict, Refusal>,
        table: &mut [u64],
        form: Form,
    ) -> Result<Parser, Refusal>
        requires { Bounds form h.now table.old self }
        ensures { KeepsLine form self h.now end next verdict table.old result table.new }
    {
        let phase = self.phase;
        let line = self.line + 1;
        match verdict {
            Err(x) => Err(x),
            Ok(Verdict::Begin(v)) => self.keep_begun(h, end, next, v, table, form),
            Ok(Verdict::Entry(e)) => {
                if !table::put(table, form, self.count, e) {
                    return Err(Refusal::TableFull);
                }
                let count = self.count + 1;
                Ok(Parser {
                    phase,
                    line,
                    at: next,
                    count,
                })
            }
            Ok(Verdict::Columns(v, samples)) => {
                self.keep_columns(h, end, next, v, samples, table, form)
            }
        }
    }

    // One line: found, judged, then kept. `marks` are those of the entries kept so far.
    fn parse_partial(
        self,
        h: &[u8],
        options: Options,
        marks: &mut [u64],
        table: &mut [u64],
    ) -> Result<Parser, Refusal>
        requires { Bounds options.form h.now table.old self }
        ensures { Parses options.form (imposed_of options.imposed) options.ascii self h.now marks.old
            table.old result marks.new table.new }
    {
        let start = self.at;
        let count = self.count;
        let phase = self.phase;
        let imposed = options.imposed;
        let form = options.form;
        let found = line::next_line(h, start);
        let at = Place {
            start,
            end: found.end,
        };
        let given = Given {
            phase,
            imposed,
            form,
            ascii: options.ascii,
        };
        let verdict = verdict::judge_line(h, table::kept(table, form, count), marks, at, given);
        self.keep(h, found.end, found.next, verdict, table, form)
    }

    // The answer where no line is left.
    pub fn finish(self) -> ReadAnswer
        ensures { answer_means result ≡ ended_at (spot_in self) }
    {
        let phase = self.phase;
        match phase {
            Phase::Empty => ReadAnswer {
                outcome: Err(Refusal::Empty),
                line: 0,
                start: 0,
                entries: self.count,
            },
            Phase::Ready(_) => ReadAnswer {
                outcome: Err(Refusal::MissingHeader),
                line: self.line,
                start: self.at,
                entries: self.count,
            },
            Phase::Done(version, samples) => ReadAnswer {
                outcome: Ok((version, samples)),
                line: self.line,
                start: self.at,
                entries: self.count,
            },
        }
    }
}

fn refuse(x: Refusal, line: usize, start: usize, entries: usize) -> ReadAnswer
    ensures { result ≡ refused_as x line start entries }
{
    ReadAnswer {
        outcome: Err(x),
        line,
        start,
        entries,
    }
}

// The lines that begin before `end`, one after the other. `marks` are those of the entries kept so far.
fn read_lines(
    header: &[u8],
    end: usize,
    from: Parser,
    options: Options,
    table: &mut [u64],
    marks: &mut [u64],
) -> Advance
    requires { BeginsMarked options.form options.ascii header.now marks.old table.old (spot_in from) }
    ensures { ReadsOn options.form (imposed_of options.imposed) header.now end table.old (spot_in from) result table.new }
{
    let mut parser = from;
    // Kept: no plainer: the parser that a line hands on tells where the next one begins.
    while parser.at < end {
        if header.len() <= parser.at {
            return Ok(parser);
        }
        match parser.parse_partial(header, options, marks, table) {
            Ok(next) => parser = next,
            Err(x) => return Err((parser, x)),
        }
    }
    Ok(parser)
}

// What the lines may clash with is marked first, in `marks`, whatever stands in these.
fn read_marked(
    header: &[u8],
    end: usize,
    from: Parser,
    options: Options,
    table: &mut [u64],
    marks: &mut [u64],
) -> Advance
    requires { Begins options.form options.ascii header.now table.old (spot_in from) }
    ensures { ReadsOn options.form (imposed_of options.imposed) header.now end table.old (spot_in from) result table.new }
{
    let form = options.form;
    let kept = table::kept(table, form, from.count);
    let phase = from.phase;
    ahead::mark_ahead(header, from.at, phase, kept, form, marks);
    read_lines(header, end, from, options, table, marks)
}

// With marks of its own, which are on the stack of no caller.
#[inline(never)]
fn read_marking<const N: usize>(
    header: &[u8],
    end: usize,
    from: Parser,
    options: Options,
    table: &mut [u64],
) -> Advance
    requires few { N ≤ 65536 }
    requires begins { Begins options.form options.ascii header.now table.old (spot_in from) }
    ensures { ReadsOn options.form (imposed_of options.imposed) header.now end table.old (spot_in from) result table.new }
{
    let mut marks = [0u64; N];
    read_marked(header, end, from, options, table, &mut marks)
}

// Of how many bytes the entries may have to be marked: hardly more than those of the lines ahead have names that stand there.
fn marked_size(header: &[u8], at: usize) -> usize
    ensures { result ≤ length header.now }
{
    let size = header.len();
    if at == 0 {
        return size;
    }
    if size <= at {
        return 0;
    }
    // So many bytes are read in more time than all marks are cleared.
    if 0x2_0000 <= size - at {
        return size;
    }
    size - at
}

// The same, with as many marks as entries of `size` bytes need: clearing more of them costs more than it spares.
fn read_sized(
    header: &[u8],
    size: usize,
    end: usize,
    from: Parser,
    options: Options,
    table: &mut [u64],
) -> Advance
    requires { Begins options.form options.ascii header.now table.old (spot_in from) }
    ensures { ReadsOn options.form (imposed_of options.imposed) header.now end table.old (spot_in from) result table.new }
{
    match size {
        0..4096 => read_marking::<64>(header, end, from, options, table),
        4096..32768 => read_marking::<512>(header, end, from, options, table),
        32768..0x7_0000 => read_marking::<16384>(header, end, from, options, table),
        _ => read_marking::<65536>(header, end, from, options, table),
    }
}

// The lines that begin before `end`, with as many marks as the bytes ahead need.
fn read_part(
    header: &[u8],
    end: usize,
    from: Parser,
    imposed: Option<FileFormat>,
    form: Form,
    table: &mut [u64],
) -> Advance
    requires { fits form (length header.now) table.old (spot_in from) ≡ true }
    ensures { ReadsOn form (imposed_of imposed) header.now end table.old (spot_in from) result table.new }
{
    let at = from.at;
    let options = Options {
        imposed,
        form,
        ascii: utf8::is_ascii(&header[at..]),
    };
    // Few lines are held against all entries in less time than it takes to mark those.
    if header.len() - at < 256 {
        return read_lines(header, end, from, options, table, &mut [0u64; 0]);
    }
    let size = marked_size(header, at);
    read_sized(header, size, end, from, options, table)
}

// As `read_part`, in parts, each up to the last LF of so many bytes: what the lines of a part may clash with are few of the entries
// before it, and marks of all entries would be full in a very long header.
fn read_parts(
    header: &[u8],
    end: usize,
    from: Parser,
    imposed: Option<FileFormat>,
    form: Form,
    table: &mut [u64],
) -> Advance
    requires { BeginsParts form header.now end table.old (spot_in from) }
    ensures { ReadsOn form (imposed_of imposed) header.now end table.old (spot_in from) result table.new }
{
    let mut parser = from;
    let mut reach = from.at;
    // Kept: no plainer: each part ends where a line does.
    while 0x12_0000 <= end - reach {
        let ahead = reach + 0x10_0000;
        let cut = line::last_end(&header[..ahead], reach);
        if cut == reach {
            reach = ahead;
        } else {
            reach = cut;
            match read_part(&header[..cut], cut, parser, imposed, form, table) {
                Ok(next) => parser = next,
                Err((next, x)) => return Err((next, x)),
            }
        }
    }
    read_part(header, end, parser, imposed, form, table)
}

// Whether the lines before `end` are read in parts: there are very many bytes, and no entry lies past those that were read, where it
// might show other bytes in a part than in the whole.
fn is_parted(header: &[u8], end: usize, from: Parser, form: Form, table: &[u64]) -> bool
    requires { fits form (length header.now) table.now (spot_in from) ≡ true }
    ensures { MayPart form header.now end table.now (spot_in from) result }
{
    let at = from.at;
    end <= header.len()
        && at <= end
        && 0x12_0000 <= end - at
        && formed::all_formed(&header[..at], table, form, from.count)
}

// Reads the lines that begin before `end`, from where the parser stands on, into the table after the entries that it counts. Where
// the parser does not fit, nothing is read.
pub fn read_on(
    header: &[u8],
    end: usize,
    from: Parser,
    imposed: Option<FileFormat>,
    form: Form,
    table: &mut [u64],
) -> Advance
    ensures { ReadsOn form (imposed_of imposed) header.now end table.old (spot_in from) result table.new }
{
    if !from.fits(form, header.len(), table) {
        return Ok(from);
    }
    if end <= from.at {
        return Ok(from);
    }
    if is_parted(header, end, from, form, table) {
        return read_parts(header, end, from, imposed, form, table);
    }
    read_part(header, end, from, imposed, form, table)
}

// Reads a header into the table, from its first entry on.
pub fn read(header: &[u8], imposed: Option<FileFormat>, form: Form, table: &mut [u64]) -> ReadAnswer
    ensures { ReadCall form (imposed_of imposed) header.now table.old result table.new }
{
    let limits = form.limits();
    if limits.header < header.len() {
        return refuse(Refusal::HeaderTooLong, 0, 0, 0);
    }
    match read_on(header, header.len(), Parser::new(), imposed, form, table) {
        Ok(parser) => parser.finish(),
        Err((parser, x)) => refuse(x, parser.line + 1, parser.at, parser.count),
    }
}
