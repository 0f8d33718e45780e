// Whether the names of a map's fields differ, told without holding each against all before it.
ghost use Rattle.std.specs.Prelude.{◌≡◌, ◌&&◌, ◌+◌, ◌≤◌, ◌<◌, ◌==◌, count_by, length, drop};
ghost use Rattle.values.specs.Bytes.{before};
ghost use Rattle.values.specs.Field.{ends_key};
ghost use Rattle.values.specs.Places.{key_at, field_at};
ghost use Rattle.values.specs.Marks.{is_met};
ghost use Rattle.records.specs.Maps.{HasKey, Distinct};
ghost use Rattle.records.specs.Names.{name_hash, again, is_of, mark_if, is_doubted, is_clear, DistinctOf, NameSought, Doubts, ReadsBare};

use crate::field;
use crate::key::MapContext;
use values::cursor::Cursor;
use values::string::Text;
use values::{bytes, hash, marks};

// So many fields have marks enough, where those that the marks can't tell from an earlier one are looked at again.
const FIELDS: usize = 368640;

// A bit for each byte below 64 that ends a name.
const NAME_ENDS: u64 = 0x7000_1004_0000_0000;

// Whether a field from `start` on, before `upto`, has this key: the first one that has it is looked for.
pub fn has_key(s: &[u8], start: usize, upto: usize, brackets: bool, key: &[u8]) -> bool
    ensures { HasKey brackets s.now start upto key.now result }
{
    let Some(text) = field::find_field(s, start, brackets, key) else {
        return false;
    };
    text.start < upto
}

fn name_hash(name: &[u8]) -> u64
    ensures { result ≡ name_hash name.now }
{
    hash::wide_from(hash::WIDE_BASIS, name, false)
}

// Whether a field before `at` has this name, where it is in doubt and the marks of such names don't tell it already; it is marked, by
// another hash than the doubts, since names whose marks are the same there would have the same here.
fn is_named(
    s: &[u8],
    map: MapContext,
    at: usize,
    name: &[u8],
    doubts: &[u64],
    marks: &mut [u64],
) -> bool
    ensures named { NameSought map s.now doubts.now marks.old at name.now result }
    ensures marks { marks.new ≡ mark_if (is_doubted doubts.now name.now) marks.old (again name.now) }
{
    let hash = name_hash(name);
    if !marks::is_met(doubts, hash) {
        return false;
    }
    if !marks::meet_hash(marks, hash::wide_step(hash, 1)) {
        return false;
    }
    has_key(s, map.start, at, map.brackets, name)
}

// A place such that no field that begins before it and whose name is in doubt has the name of an earlier one, whatever stands in `marks`.
fn mark_fields(s: &[u8], map: MapContext, doubts: &[u64], marks: &mut [u64]) -> usize
    ensures { DistinctOf (is_doubted doubts.now) map s.now result }
{
    let mut c = Cursor { at: map.start };
    // Kept: no plainer: each field tells where the next one begins, and a walk has two ways to end.
    loop {
        let at = c.at;
        let Some((equals, _, next)) = c.split_field(s, map.brackets) else {
            return at;
        };
        if is_named(s, map, at, bytes::part(s, at, equals), doubts, marks) {
            return at;
        }
        let Some(d) = next.consume_separator(s) else {
            return next.at;
        };
        c = d;
    }
}

// Whether a byte ends a name, told without a branch: where letters and other bytes are mixed at random, the processor would often take
// the wrong one, and wait.
fn ends_name(b: u8) -> bool
    ensures { result ≡ ends_key b }
{
    ((b / 64) as u64) < (NAME_ENDS >> (b % 64)) % 2
}

fn find_name_end(s: &[u8], start: usize) -> usize
    ensures { result ≡ start + length (before ends_key (drop start s.now)) }
{
    for i in start..s.len() {
        if ends_name(s[i]) {
            return i;
        }
    }
    start.max(s.len())
}

// As `parse_key`, which is faster where names are plain.
fn parse_name(s: &[u8], c: Cursor) -> Option<(usize, Cursor)>
    ensures { result ≡ key_at s.now c.at }
{
    let start = c.at;
    let end = find_name_end(s, start);
    if end == start || s.len() <= end || s[end] != b'=' {
        return None;
    }
    Some((end, Cursor { at: end + 1 }))
}

// A value that stands bare; others are left to `split_field`.
fn parse_bare(s: &[u8], c: Cursor) -> Option<(Text, Cursor)>
    ensures { ReadsBare s.now c.at result }
{
    let Some((b, _)) = c.next_byte(s) else {
        return None;
    };
    if b == b'"' {
        return None;
    }
    c.parse_raw_string(s)
}

// As `split_field`.
fn split(s: &[u8], c: Cursor, brackets: bool) -> Option<(usize, Text, Cursor)>
    ensures { result ≡ field_at brackets s.now c.at }
{
    if brackets {
        return c.split_field(s, brackets);
    }
    let Some((equals, value)) = parse_name(s, c) else {
        return None;
    };
    let Some((text, next)) = parse_bare(s, value) else {
        return c.split_field(s, brackets);
    };
    Some((equals, text, next))
}

// A name of the class that may have been met is put in doubt, and each is marked.
fn doubt_name(name: &[u8], classes: usize, class: usize, marks: &mut [u64], doubts: &mut [u64])
    requires { 0 < classes }
    ensures marks { marks.new ≡ mark_if (is_of classes class name.now) marks.old (name_hash name.now) }
    ensures doubts { doubts.new ≡ mark_if (is_of classes class name.now && is_met marks.old (name_hash name.now)) doubts.old (name_hash name.now) }
{
    let hash = name_hash(name);
    if hash % 0x1_0000_0000 % (classes as u64) != class as u64 {
        return;
    }
    if marks::meet_hash(marks, hash) {
        marks::meet_hash(doubts, hash);
    }
}

// A place such that no field that begins before it and whose name is of the class has the name of an earlier one, unless it is in doubt.
fn doubt_fields(
    s: &[u8],
    map: MapContext,
    classes: usize,
    class: usize,
    marks: &mut [u64],
    doubts: &mut [u64],
) -> usize
    requires { 0 < classes }
    ensures { Doubts classes class map s.now doubts.old doubts.new result }
{
    let mut c = Cursor { at: map.start };
    // Kept: no plainer: each field tells where the next one begins, and a walk has two ways to end.
    loop {
        let at = c.at;
        let Some((equals, _, next)) = split(s, c, map.brackets) else {
            return at;
        };
        doubt_name(bytes::part(s, at, equals), classes, class, marks, doubts);
        let Some(d) = next.consume_separator(s) else {
            return next.at;
        };
        c = d;
    }
}

fn doubt_class(s: &[u8], map: MapContext, classes: usize, class: usize, doubts: &mut [u64]) -> usize
    requires { 0 < classes }
    ensures { Doubts classes class map s.now doubts.old doubts.new result }
{
    let mut marks = [0u64; 40960];
    doubt_fields(s, map, classes, class, &mut marks, doubts)
}

// How often a byte stands there: each is looked at, so that a compiler can take many at once.
fn count(s: &[u8], x: u8) -> usize
    ensures { result ≡ count_by (λ b. b == x) s.now }
{
    s.iter().filter(|b| **b == x).count()
}

// The names of one class after the other, so that the marks are enough for any number of fields: each has a `=`, and a `,` follows it.
fn doubt_classes(s: &[u8], map: MapContext, doubts: &mut [u64]) -> usize
    ensures { DistinctOf (is_clear doubts.new) map s.now result }
{
    let fields = count(s, b',').min(count(s, b'='));
    let classes = fields / FIELDS + 1;
    let mut distinct = s.len();
    for class in 0..classes {
        let end = doubt_class(s, map, classes, class, doubts);
        distinct = distinct.min(end);
    }
    distinct
}

fn mark_doubts(s: &[u8], map: MapContext, doubts: &[u64]) -> usize
    ensures { DistinctOf (is_doubted doubts.now) map s.now result }
{
    let mut marks = [0u64; 40960];
    mark_fields(s, map, doubts, &mut marks)
}

// The names that may stand twice are found first, then only these are marked: so few are looked for in vain, each by a walk over all fields.
#[inline(never)]
fn find_longer(s: &[u8], map: MapContext) -> usize
    ensures { Distinct map s.now result }
{
    let mut doubts = [0u64; 8192];
    let clear = doubt_classes(s, map, &mut doubts);
    let sought = mark_doubts(s, map, &doubts);
    clear.min(sought)
}

// Where there are no doubts, each name is in doubt.
fn mark_all(s: &[u8], map: MapContext, marks: &mut [u64]) -> usize
    ensures { Distinct map s.now result }
{
    let none = [0u64; 0];
    mark_fields(s, map, &none, marks)
}

// With marks of its own, which are on the stack of no caller.
#[inline(never)]
fn find_marked<const N: usize>(s: &[u8], map: MapContext) -> usize
    requires { N ≤ 40960 }
    ensures { Distinct map s.now result }
{
    let mut marks = [0u64; N];
    mark_all(s, map, &mut marks)
}

// A place such that no field that begins before it has the name of an earlier one.
pub fn find(s: &[u8], map: MapContext) -> usize
    ensures { Distinct map s.now result }
{
    match s.len() {
        0..1024 => find_marked::<64>(s, map),
        1024..65536 => find_marked::<4096>(s, map),
        65536..0x4_0000 => find_marked::<40960>(s, map),
        _ => find_longer(s, map),
    }
}
