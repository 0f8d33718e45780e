// The pairs of a dictionary: each ID at its first line.
ghost use Rattle.std.specs.Prelude.{◌≡◌};
ghost use Rattle.dictionary.specs.Lines.{table_lines};
ghost use Rattle.dictionary.specs.Places.{place_at};
ghost use Rattle.dictionary.specs.Slots.{StandsAt};
ghost use Rattle.dictionary.specs.Marks.{line_number, Tells};
ghost use Rattle.dictionary.specs.Pairs.{carried_by, EndsLines, put_pair, first_number, Counts, turn_of, turn_out, NumbersLines};

use crate::line::Dictionary;
use crate::place::{Asked, Placed};
use crate::{line, place};
use entries::entry::Entry;
use entries::form::Form;
use entries::table;

// Whether some lines carry IDX, whether some don't, and how many lines there are.
#[derive(Clone, Copy)]
pub struct Carried {
    pub given: bool,
    pub missing: bool,
    pub lines: usize,
}

// How many pairs there are so far, and the number that the next ID is due.
#[derive(Clone, Copy)]
pub struct Count {
    pub pairs: usize,
    pub next: u64,
}

pub fn carried_in(h: &[u8], kept: &[u64], form: Form, dictionary: Dictionary) -> Carried
    ensures { result ≡ carried_by (table_lines dictionary form h.now kept.now) }
{
    let mut given = false;
    let mut missing = false;
    let mut lines = 0;
    for k in 0..table::count(kept, form) {
        let e = table::get(kept, form, k);
        if line::has_kind(dictionary, e.kind) {
            lines += 1;
            match line::line_idx(h, e) {
                Some(_) => given = true,
                None => missing = true,
            }
        }
    }
    Carried {
        given,
        missing,
        lines,
    }
}

// How many entries there are up to the last line of a dictionary.
pub fn lines_end(kept: &[u64], form: Form) -> usize
    ensures { EndsLines form kept.now result }
{
    for k in (0..table::count(kept, form)).rev() {
        let kind = table::get(kept, form, k).kind;
        if line::has_kind(Dictionary::Strings, kind) || line::has_kind(Dictionary::Contigs, kind) {
            return k + 1;
        }
    }
    0
}

// The pair of this number, if there is room for it.
fn put_pair(out: &mut [u64], pair: usize, entry: u64, number: u64)
    ensures { out.new ≡ put_pair out.old pair entry number }
{
    if pair < out.len() / 2 {
        let at = 2 * pair;
        out[at] = entry;
        out[at + 1] = number;
    }
}

fn first_number(dictionary: Dictionary) -> u64
    ensures { result ≡ first_number dictionary }
{
    match dictionary {
        Dictionary::Strings => 1,
        Dictionary::Contigs => 0,
    }
}

// What the place of an entry's line does to the counts; its pair is written if it is the first of its ID.
// One line further; none where numbers clash.
fn take_place(count: Count, placed: Placed, entry: u64, out: &mut [u64]) -> Option<Count>
    requires { Counts count }
    ensures turn { result ≡ turn_of count placed }
    ensures out { out.new ≡ turn_out out.old entry count placed }
{
    let Count { pairs, next } = count;
    match placed {
        Placed::Numbered(n) => {
            put_pair(out, pairs, entry, n);
            Some(Count {
                pairs: pairs + 1,
                next,
            })
        }
        Placed::Due => {
            put_pair(out, pairs, entry, next);
            Some(Count {
                pairs: pairs + 1,
                next: next + 1,
            })
        }
        Placed::Again => Some(count),
        Placed::Clash => None,
    }
}

// The line of an entry, numbered beside those before it.
fn number_line(
    h: &[u8],
    kept: &[u64],
    asked: Asked,
    e: Entry,
    count: Count,
    entry: usize,
    line: usize,
    marks: &[u64],
    out: &mut [u64],
) -> Option<Count>
    requires counts { Counts count }
    requires stands_at { StandsAt asked.dictionary asked.form kept.now entry e }
    requires line_value { line ≡ line_number asked h.now kept.now entry }
    requires tells { Tells asked h.now kept.now marks.now }
    ensures turn { result ≡ turn_of count (place_at asked.indexed asked.dictionary asked.form h.now kept.now entry e) }
    ensures out { out.new ≡ turn_out out.old entry count
        (place_at asked.indexed asked.dictionary asked.form h.now kept.now entry e) }
{
    let needed = count.pairs < out.len() / 2;
    let placed = place::place_line(h, kept, asked, e, entry, line, marks, needed);
    take_place(count, placed, entry as u64, out)
}

// By the marks of the dictionary's lines.
// How many pairs; none where numbers clash.
pub fn number_lines(
    h: &[u8],
    kept: &[u64],
    asked: Asked,
    marks: &[u64],
    out: &mut [u64],
) -> Option<usize>
    requires { Tells asked h.now kept.now marks.now }
    ensures { NumbersLines asked.dictionary asked.indexed (table_lines asked.dictionary asked.form h.now kept.now) out.old result
        out.new }
{
    let form = asked.form;
    let dictionary = asked.dictionary;
    let mut count = Count {
        pairs: 0,
        next: first_number(dictionary),
    };
    let mut lines = 0;
    for k in 0..table::count(kept, form) {
        let e = table::get(kept, form, k);
        if line::has_kind(dictionary, e.kind) {
            match number_line(h, kept, asked, e, count, k, lines, marks, out) {
                Some(c) => count = c,
                None => return None,
            }
            lines += 1;
        }
    }
    Some(count.pairs)
}
