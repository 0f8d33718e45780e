// The column line: its fixed columns and its sample names, and their entries.
ghost use Rattle.std.specs.Prelude.{◌≡◌, true, ◌&&◌, ◌≤◌, ◌<◌, length, drop};
ghost use Rattle.values.specs.Hash.{wide_of};
ghost use Rattle.values.specs.Marks.{is_marked};
ghost use Rattle.rules.specs.Known.{is_in};
ghost use Rattle.rules.specs.Columns.{split, distinct};
ghost use Rattle.rules.specs.Entry.{sample_kind};
ghost use Rattle.entries.specs.Tables.{put_all};
ghost use Rattle.columns.specs.HeaderLines.{HeaderRead, samples_read, ended, is_of, is_doubted, is_clear, distinct_of, mark_if, doubt_if, is_repeated, mark_of, Doubts, name_entries, columns_put};
ghost use Rattle.values.specs.Bytes.{part};

use entries::entry::Entry;
use entries::form::Form;
use entries::{kind, table};
use values::{bytes, hash, marks};

// Where the fixed columns end, and where the first name stands: after these, FORMAT and two tabs.
const FIXED_END: usize = 38;

const NAMES_START: usize = 46;

// So many names have marks enough, where those that the marks can't tell from an earlier one are looked at again.
const NAMES: usize = 262144;

// Whether FORMAT stood, and how many samples there are.
pub type ColumnsRead = Result<(bool, usize), ColumnsRefusal>;

#[derive(Clone, Copy)]
pub enum ColumnsRefusal {
    WrongColumn,
    DuplicateSample,
}

// Whether the name is one of those in `names`, each of which a tab ends.
// Kept: `split` finds a tab by `position`, which is 36 % slower than `bytes::find`.
fn is_among(names: &[u8], name: &[u8]) -> bool
    ensures { result ≡ is_in name.now (ended names.now) }
{
    let mut at: usize = 0;
    loop {
        let end = bytes::find(names, at, b'\t');
        if names.len() <= end {
            return false;
        }
        if bytes::same(bytes::part(names, at, end), name) {
            return true;
        }
        at = end + 1;
    }
}

// The hash by which a name is marked.
fn name_hash(name: &[u8]) -> u64
    ensures { result ≡ wide_of sample_kind name.now }
{
    hash::wide_from(
        hash::wide_step(hash::WIDE_BASIS, kind::SAMPLE as u16),
        name,
        false,
    )
}

// Whether a name in doubt is one of those in `names`, where the marks don't tell it already; it is marked, by another hash than the doubts,
// since names whose marks are the same there would have the same here.
fn is_repeated(names: &[u8], doubts: &[u64], marks: &mut [u64], name: &[u8]) -> bool
    ensures repeated { result ≡ is_repeated doubts.now names.now marks.old name.now }
    ensures marks { marks.new ≡ mark_of doubts.now marks.old name.now }
{
    let hash = name_hash(name);
    if !marks::is_met(doubts, hash::wide_step(hash, 1)) {
        return false;
    }
    if !marks::meet_hash(marks, hash) {
        return false;
    }
    is_among(names, name)
}

// The names after FORMAT, those in doubt each held against all before it, whatever stands in `marks` before.
// Kept: a walk from tab to tab, since each name's place tells those before it.
fn count_samples(s: &[u8], doubts: &[u64], marks: &mut [u64]) -> ColumnsRead
    ensures { result ≡ samples_read (distinct_of (is_doubted doubts.now) (split (drop 46 s.now))) (length (split (drop 46 s.now))) }
{
    let mut at: usize = NAMES_START;
    let mut n: usize = 0;
    loop {
        let end = bytes::find(s, at, b'\t');
        let name = bytes::part(s, at, end);
        let names = bytes::part(s, NAMES_START, at);
        if is_repeated(names, doubts, marks, name) {
            return Err(ColumnsRefusal::DuplicateSample);
        }
        n += 1;
        if s.len() <= end {
            return Ok((true, n));
        }
        at = end + 1;
    }
}

// Where there are no doubts, each name is in doubt.
fn count_all(s: &[u8], marks: &mut [u64]) -> ColumnsRead
    ensures { result ≡ samples_read (distinct (split (drop 46 s.now))) (length (split (drop 46 s.now))) }
{
    let none = [0u64; 0];
    count_samples(s, &none, marks)
}

// A line of less than 16384 bytes has few names, and clearing more marks than they need costs more than it spares.
#[inline(never)]
fn count_short(s: &[u8]) -> ColumnsRead
    ensures { result ≡ samples_read (distinct (split (drop 46 s.now))) (length (split (drop 46 s.now))) }
{
    let mut marks = [0u64; 512];
    count_all(s, &mut marks)
}

#[inline(never)]
fn count_long(s: &[u8]) -> ColumnsRead
    ensures { result ≡ samples_read (distinct (split (drop 46 s.now))) (length (split (drop 46 s.now))) }
{
    let mut marks = [0u64; 8192];
    count_all(s, &mut marks)
}

// A name of the class that may have been met is put in doubt, and each of the class is marked.
fn doubt_name(name: &[u8], classes: usize, class: usize, marks: &mut [u64], doubts: &mut [u64])
    requires { 0 < classes }
    ensures marks { marks.new ≡ mark_if (is_of classes class name.now) marks.old name.now }
    ensures doubts { doubts.new ≡ doubt_if (is_of classes class name.now && is_marked marks.old sample_kind name.now) doubts.old name.now }
{
    let hash = name_hash(name);
    if hash % 0x1_0000_0000 % (classes as u64) != class as u64 {
        return;
    }
    if !marks::meet_hash(marks, hash) {
        return;
    }
    marks::meet_hash(doubts, hash::wide_step(hash, 1));
}

// Kept: a walk from tab to tab, as in `is_among`.
fn doubt_names(s: &[u8], classes: usize, class: usize, marks: &mut [u64], doubts: &mut [u64])
    requires { 0 < classes }
    ensures { Doubts classes class (split (drop 46 s.now)) doubts.old doubts.new }
{
    let mut at: usize = NAMES_START;
    loop {
        let end = bytes::find(s, at, b'\t');
        doubt_name(bytes::part(s, at, end), classes, class, marks, doubts);
        if s.len() <= end {
            return;
        }
        at = end + 1;
    }
}

fn doubt_class(s: &[u8], classes: usize, class: usize, doubts: &mut [u64])
    requires { 0 < classes }
    ensures { Doubts classes class (split (drop 46 s.now)) doubts.old doubts.new }
{
    let mut marks = [0u64; 36864];
    doubt_names(s, classes, class, &mut marks, doubts);
}

// How often a byte stands there: each is looked at, so that a compiler can take many at once.
fn count(s: &[u8], x: u8) -> usize
    ensures { result ≤ length s.now }
{
    let mut n: usize = 0;
    for b in s {
        if *b == x {
            n += 1;
        }
    }
    n
}

// The names of one class after the other, so that the marks are enough for a line of any length.
fn doubt_classes(s: &[u8], doubts: &mut [u64])
    ensures { distinct_of (is_clear doubts.new) (split (drop 46 s.now)) ≡ true }
{
    let classes = count(s, b'\t') / NAMES + 1;
    for class in 0..classes {
        doubt_class(s, classes, class, doubts);
    }
}

fn count_doubted(s: &[u8], doubts: &[u64]) -> ColumnsRead
    ensures { result ≡ samples_read (distinct_of (is_doubted doubts.now) (split (drop 46 s.now))) (length (split (drop 46 s.now))) }
{
    let mut marks = [0u64; 36864];
    count_samples(s, doubts, &mut marks)
}

// The names that may stand twice are found first, then only these are marked: so few are looked for in vain, each among all before it.
#[inline(never)]
fn count_longer(s: &[u8]) -> ColumnsRead
    ensures { result ≡ samples_read (distinct (split (drop 46 s.now))) (length (split (drop 46 s.now))) }
{
    let mut doubts = [0u64; 8192];
    doubt_classes(s, &mut doubts);
    count_doubted(s, &doubts)
}

// With as many marks as a line of this length needs. Each of the three is a function that is not made a part of its caller: else all marks
// would be on the stack of every header.
fn count_marked(s: &[u8]) -> ColumnsRead
    ensures { result ≡ samples_read (distinct (split (drop 46 s.now))) (length (split (drop 46 s.now))) }
{
    if s.len() < 16384 {
        return count_short(s);
    }
    if s.len() < 131072 {
        return count_long(s);
    }
    count_longer(s)
}

// The line is the fixed columns, or these and FORMAT, or these and the names after FORMAT.
pub fn parse_header(s: &[u8]) -> ColumnsRead
    ensures { HeaderRead s.now result }
{
    if !bytes::starts_with(s, b"#CHROM\tPOS\tID\tREF\tALT\tQUAL\tFILTER\tINFO") {
        return Err(ColumnsRefusal::WrongColumn);
    }
    let rest = bytes::part(s, FIXED_END, s.len());
    if rest.len() == 0 {
        return Ok((false, 0));
    }
    if bytes::same(rest, b"\tFORMAT") {
        return Ok((true, 0));
    }
    if !bytes::starts_with(rest, b"\tFORMAT\t") {
        return Err(ColumnsRefusal::WrongColumn);
    }
    count_marked(s)
}

// One entry for each name after FORMAT, from number n on, as far as there is room.
// Kept: a walk from tab to tab, since an entry tells where its name stands.
fn write_samples(h: &[u8], start: usize, end: usize, n: usize, table: &mut [u64], form: Form)
    ensures { table.new ≡ put_all form table.old n (name_entries (part h.now start end) start) }
{
    let line = bytes::part(h, start, end);
    if line.len() < NAMES_START {
        return;
    }
    let mut from: usize = NAMES_START;
    let mut k = n;
    loop {
        let tab = bytes::find(line, from, b'\t');
        if !table::put(
            table,
            form,
            k,
            Entry::plain(kind::SAMPLE, start + from, tab - from),
        ) {
            return;
        }
        if line.len() <= tab {
            return;
        }
        from = tab + 1;
        k += 1;
    }
}

// The entry of the column line that stands from `start` to `end`, from number n on, and those of its samples, as far as there
// is room.
pub fn write_columns(h: &[u8], start: usize, end: usize, n: usize, table: &mut [u64], form: Form)
    ensures { table.new ≡ columns_put form (part h.now start end) start n table.old }
{
    let line = bytes::part(h, start, end);
    if !table::put(
        table,
        form,
        n,
        Entry::plain(kind::COLUMNS, start, line.len()),
    ) {
        return;
    }
    write_samples(h, start, end, n + 1, table, form);
}
