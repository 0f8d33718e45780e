// Both dictionaries of a header: checked and counted first, then written if all may stand and fits.
ghost use Rattle.std.specs.Prelude.{◌≡◌, ◌&&◌, ◌<◌, ◌≤◌, length, take};
ghost use Rattle.header.specs.Verdicts.{imposed_of};
ghost use Rattle.dictionary.specs.Lines.{table_lines, string_lines, contig_lines};
ghost use Rattle.dictionary.specs.Pairs.{carried_by};
ghost use Rattle.dictionary.specs.Slots.{AllOpen};
ghost use Rattle.dictionary.specs.Marks.{asked_of, Tells, behind};
ghost use Rattle.dictionary.specs.declared.line.Dictionary.TheVariants.{Strings, Contigs};
ghost use Rattle.dictionary.specs.Answers.{dictionary_number, DictionaryCall, CountsPairs, Judges, NumbersBoth, dictionary_refused_as, answer_of, AnswersBoth};

use crate::line::Dictionary;
use crate::numbering::Carried;
use crate::place::Asked;
use crate::{marking, numbering};
use entries::form::Form;
use entries::table;
use header::parser;
use header::parser::ReadAnswer;
use records::file_format::FileFormat;
use records::refusal::Refusal;

// What came of a call: the version in force and the number of samples; the reading's refusal; or IDX on some lines only, a clash of
// numbers, a slice too small.
pub type DictionaryOutcome = Result<(FileFormat, usize), DictionaryRefusal>;

#[derive(Clone, Copy)]
pub enum DictionaryRefusal {
    Unread(Refusal),
    PartlyIndexed,
    NumberClash,
    SliceTooSmall,
}

// Document 02's number, 0 if accepted.
pub fn number(outcome: DictionaryOutcome) -> u64
    ensures { result ≡ dictionary_number outcome }
{
    match outcome {
        Ok((_, _)) => 0,
        Err(DictionaryRefusal::Unread(refusal)) => refusal.number(),
        Err(DictionaryRefusal::PartlyIndexed) => 34,
        Err(DictionaryRefusal::NumberClash) => 35,
        Err(DictionaryRefusal::SliceTooSmall) => 36,
    }
}

// The outcome, the line and its start, how many entries the table keeps, and how many pairs were written of each dictionary.
#[derive(Clone, Copy)]
pub struct DictionaryAnswer {
    pub outcome: DictionaryOutcome,
    pub line: usize,
    pub start: usize,
    pub entries: usize,
    pub strings: usize,
    pub contigs: usize,
}

// What becomes of both dictionaries: how many pairs they have, or why not.
#[derive(Clone, Copy)]
enum Judged {
    Whole(usize, usize),
    PartlyIndexed,
    NumberClash,
    SliceTooSmall,
}

fn is_mixed(carried: Carried) -> bool
    ensures { result ≡ carried.given && carried.missing }
{
    carried.given && carried.missing
}

fn asked_of(form: Form, dictionary: Dictionary, carried: Carried) -> Asked
    ensures { result ≡ asked_of form dictionary carried }
{
    Asked {
        form,
        dictionary,
        indexed: carried.given,
        lines: carried.lines,
    }
}

fn count_pairs(
    h: &[u8],
    kept: &[u64],
    form: Form,
    dictionary: Dictionary,
    carried: Carried,
    marks: &[u64],
) -> Option<usize>
    requires { Tells (asked_of form dictionary carried) h.now kept.now marks.now }
    ensures { CountsPairs dictionary carried.given (table_lines dictionary form h.now kept.now) result }
{
    let mut nothing = [0u64; 0];
    let asked = asked_of(form, dictionary, carried);
    numbering::number_lines(h, kept, asked, marks, &mut nothing)
}

// `s` and `c` tell which lines carry IDX, `smarks` and `cmarks` are the marks of the lines, `strings` and `contigs` the words that there are for the pairs.
fn judge(
    h: &[u8],
    kept: &[u64],
    form: Form,
    s: Carried,
    c: Carried,
    smarks: &[u64],
    cmarks: &[u64],
    strings: usize,
    contigs: usize,
) -> Judged
    requires tells { Tells (asked_of form Strings s) h.now kept.now smarks.now }
    requires tells_2 { Tells (asked_of form Contigs c) h.now kept.now cmarks.now }
    ensures { Judges form s c h.now kept.now strings contigs result }
{
    if is_mixed(s) || is_mixed(c) {
        return Judged::PartlyIndexed;
    }
    let Some(n) = count_pairs(h, kept, form, Dictionary::Strings, s, smarks) else {
        return Judged::NumberClash;
    };
    let Some(m) = count_pairs(h, kept, form, Dictionary::Contigs, c, cmarks) else {
        return Judged::NumberClash;
    };
    if strings / 2 < n || contigs / 2 < m {
        return Judged::SliceTooSmall;
    }
    Judged::Whole(n, m)
}

// By marks, the first n words of which are the strings', the others the contigs'.
fn number_marked(
    h: &[u8],
    kept: &[u64],
    form: Form,
    s: Carried,
    c: Carried,
    n: usize,
    marks: &[u64],
    strings: &mut [u64],
    contigs: &mut [u64],
) -> Judged
    requires s_value { s ≡ carried_by (string_lines form h.now kept.now) }
    requires c_value { c ≡ carried_by (contig_lines form h.now kept.now) }
    requires n_in_bounds { n ≤ length marks.now }
    requires tells { Tells (asked_of form Strings s) h.now kept.now (take n marks.now) }
    requires tells_2 { Tells (asked_of form Contigs c) h.now kept.now (behind n marks.now) }
    ensures { NumbersBoth form h.now kept.now strings.old contigs.old result strings.new contigs.new }
{
    let for_strings = asked_of(form, Dictionary::Strings, s);
    let for_contigs = asked_of(form, Dictionary::Contigs, c);
    let smarks = &marks[..n];
    let cmarks = &marks[n..];
    let judged = judge(
        h,
        kept,
        form,
        s,
        c,
        smarks,
        cmarks,
        strings.len(),
        contigs.len(),
    );
    if let Judged::Whole(_, _) = judged {
        numbering::number_lines(h, kept, for_strings, smarks, strings);
        numbering::number_lines(h, kept, for_contigs, cmarks, contigs);
    }
    judged
}

// Marks that are not set yet. Nothing is to be marked where a dictionary has no lines.
fn mark_any(
    h: &[u8],
    kept: &[u64],
    form: Form,
    dictionary: Dictionary,
    carried: Carried,
    marks: &mut [u64],
)
    requires carried_value { carried ≡ carried_by (table_lines dictionary form h.now kept.now) }
    requires all_open { AllOpen marks.old }
    ensures { Tells (asked_of form dictionary carried) h.now kept.now marks.new }
{
    if carried.lines != 0 {
        marking::mark(h, kept, asked_of(form, dictionary, carried), marks);
    }
}

// How many of so many words have the marks of the strings; those behind have those of the contigs.
fn string_words(strings: Carried, words: usize) -> usize
    ensures { result ≤ words }
{
    words.min(strings.lines / 32 + 1)
}

// In the first n words.
fn mark_strings(h: &[u8], kept: &[u64], form: Form, s: Carried, n: usize, marks: &mut [u64])
    requires s_value { s ≡ carried_by (string_lines form h.now kept.now) }
    requires n_in_bounds { n ≤ length marks.old }
    requires all_open { AllOpen marks.old }
    ensures marked { Tells (asked_of form Strings s) h.now kept.now (take n marks.new) }
    ensures others { behind n marks.new ≡ behind n marks.old }
{
    mark_any(h, kept, form, Dictionary::Strings, s, &mut marks[..n]);
}

// In the others.
fn mark_contigs(h: &[u8], kept: &[u64], form: Form, c: Carried, n: usize, marks: &mut [u64])
    requires c_value { c ≡ carried_by (contig_lines form h.now kept.now) }
    requires n_in_bounds { n ≤ length marks.old }
    requires all_open { AllOpen (behind n marks.old) }
    ensures marked { Tells (asked_of form Contigs c) h.now kept.now (behind n marks.new) }
    ensures others { take n marks.new ≡ take n marks.old }
{
    mark_any(h, kept, form, Dictionary::Contigs, c, &mut marks[n..]);
}

// The first n words are the strings'.
fn mark_both(
    h: &[u8],
    kept: &[u64],
    form: Form,
    s: Carried,
    c: Carried,
    n: usize,
    marks: &mut [u64],
)
    requires s_value { s ≡ carried_by (string_lines form h.now kept.now) }
    requires c_value { c ≡ carried_by (contig_lines form h.now kept.now) }
    requires n_in_bounds { n ≤ length marks.old }
    requires all_open { AllOpen marks.old }
    ensures strings { Tells (asked_of form Strings s) h.now kept.now (take n marks.new) }
    ensures contigs { Tells (asked_of form Contigs c) h.now kept.now (behind n marks.new) }
{
    mark_strings(h, kept, form, s, n, marks);
    mark_contigs(h, kept, form, c, n, marks);
}

// The marks are not set yet.
fn number_by(
    h: &[u8],
    kept: &[u64],
    form: Form,
    s: Carried,
    c: Carried,
    marks: &mut [u64],
    strings: &mut [u64],
    contigs: &mut [u64],
) -> Judged
    requires s_value { s ≡ carried_by (string_lines form h.now kept.now) }
    requires c_value { c ≡ carried_by (contig_lines form h.now kept.now) }
    requires all_open { AllOpen marks.old }
    ensures { NumbersBoth form h.now kept.now strings.old contigs.old result strings.new contigs.new }
{
    let n = string_words(s, marks.len());
    mark_both(h, kept, form, s, c, n, marks);
    number_marked(h, kept, form, s, c, n, marks, strings, contigs)
}

// With so many words of marks of its own, in a function of its own, so that they are not on the stack where a header is read.
#[inline(never)]
fn number_with<const WORDS: usize>(
    h: &[u8],
    kept: &[u64],
    form: Form,
    s: Carried,
    c: Carried,
    strings: &mut [u64],
    contigs: &mut [u64],
) -> Judged
    requires s_value { s ≡ carried_by (string_lines form h.now kept.now) }
    requires c_value { c ≡ carried_by (contig_lines form h.now kept.now) }
    requires words_small { WORDS < 4294967296 }
    ensures { NumbersBoth form h.now kept.now strings.old contigs.old result strings.new contigs.new }
{
    let mut marks = [0u64; WORDS];
    number_by(h, kept, form, s, c, &mut marks, strings, contigs)
}

// Two bits for each line: few lines need few words, and most have two bits for each of so many lines as a header of sixteen megabytes can have;
// the shortest, `##contig=<ID=a>`, has sixteen bytes.
fn number_used(
    h: &[u8],
    used: &[u64],
    form: Form,
    strings: &mut [u64],
    contigs: &mut [u64],
) -> Judged
    ensures { NumbersBoth form h.now used.now strings.old contigs.old result strings.new contigs.new }
{
    let s = numbering::carried_in(h, used, form, Dictionary::Strings);
    let c = numbering::carried_in(h, used, form, Dictionary::Contigs);
    if s.lines / 32 + c.lines / 32 <= 510 {
        number_with::<512>(h, used, form, s, c, strings, contigs)
    } else {
        number_with::<32770>(h, used, form, s, c, strings, contigs)
    }
}

// `kept` are the entries of an accepted header; samples, which stand behind all lines, are not gone over each time.
fn number_both(
    h: &[u8],
    kept: &[u64],
    form: Form,
    strings: &mut [u64],
    contigs: &mut [u64],
) -> Judged
    ensures { NumbersBoth form h.now kept.now strings.old contigs.old result strings.new contigs.new }
{
    let end = numbering::lines_end(kept, form);
    number_used(h, table::kept(kept, form, end), form, strings, contigs)
}

fn refuse(outcome: DictionaryOutcome, line: usize, start: usize, entries: usize) -> DictionaryAnswer
    ensures { result ≡ dictionary_refused_as outcome line start entries }
{
    DictionaryAnswer {
        outcome,
        line,
        start,
        entries,
        strings: 0,
        contigs: 0,
    }
}

// The answer after an accepted reading.
fn answer(read: ReadAnswer, version: FileFormat, samples: usize, judged: Judged) -> DictionaryAnswer
    ensures { result ≡ answer_of read version samples judged }
{
    let entries = read.entries;
    match judged {
        Judged::Whole(strings, contigs) => DictionaryAnswer {
            outcome: Ok((version, samples)),
            line: read.line,
            start: read.start,
            entries,
            strings,
            contigs,
        },
        Judged::PartlyIndexed => refuse(Err(DictionaryRefusal::PartlyIndexed), 0, 0, entries),
        Judged::NumberClash => refuse(Err(DictionaryRefusal::NumberClash), 0, 0, entries),
        Judged::SliceTooSmall => refuse(Err(DictionaryRefusal::SliceTooSmall), 0, 0, entries),
    }
}

fn answer_accepted(
    h: &[u8],
    kept: &[u64],
    form: Form,
    read: ReadAnswer,
    version: FileFormat,
    samples: usize,
    strings: &mut [u64],
    contigs: &mut [u64],
) -> DictionaryAnswer
    ensures { AnswersBoth form read version samples h.now kept.now strings.old contigs.old result strings.new
        contigs.new }
{
    let judged = number_both(h, kept, form, strings, contigs);
    answer(read, version, samples, judged)
}

// Reads a header into the table and fills both slices with pairs: the entry of an ID's first line, and the ID's number. Nothing is
// written to them if it is refused.
pub fn dictionaries(
    header: &[u8],
    imposed: Option<FileFormat>,
    form: Form,
    table: &mut [u64],
    strings: &mut [u64],
    contigs: &mut [u64],
) -> DictionaryAnswer
    ensures { DictionaryCall form (imposed_of imposed) header.now table.old strings.old contigs.old result
        table.new strings.new contigs.new }
{
    let read = parser::read(header, imposed, form, table);
    let entries = read.entries;
    let outcome = read.outcome;
    match outcome {
        Err(x) => refuse(
            Err(DictionaryRefusal::Unread(x)),
            read.line,
            read.start,
            entries,
        ),
        Ok((version, samples)) => answer_accepted(
            header,
            table::kept(table, form, entries),
            form,
            read,
            version,
            samples,
            strings,
            contigs,
        ),
    }
}
