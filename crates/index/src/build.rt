// Building an index of a table's entries.
ghost use Rattle.std.specs.Prelude.{◌≡◌, ◌<◌, length, replicate};
ghost use Rattle.entries.specs.Values.{entry_of};
ghost use Rattle.index.specs.Index.{indexed_in, build_number, answer_of, placed, entry_placed, build_answer, built_index, Tallies, PlacesAll};

use crate::place;
use entries::entry::Entry;
use entries::form::Form;
use entries::{part, shown, table};

pub type BuildOutcome = Result<(), BuildRefusal>;

#[derive(Clone, Copy)]
pub enum BuildRefusal {
    NotWellFormed,
    TooFewPlaces,
}

// How many entries were placed; none if the call is refused.
#[derive(Clone, Copy)]
pub struct BuildAnswer {
    pub outcome: BuildOutcome,
    pub placed: usize,
}

// Document 02's number; 0 if the index is built.
pub fn number(outcome: BuildOutcome) -> u64
    ensures { result ≡ build_number outcome }
{
    match outcome {
        Ok(()) => 0,
        Err(BuildRefusal::NotWellFormed) => 29,
        Err(BuildRefusal::TooFewPlaces) => 33,
    }
}

// Counts the entries to place; ends at one that is not well formed.
// How many, and the number plus 1 of the last.
fn tally(h: &[u8], table: &[u64], form: Form) -> Option<(usize, usize)>
    ensures { Tallies (indexed_in form h.now table.now) result }
{
    let entries = table::count(table, form);
    let mut count: usize = 0;
    let mut last: usize = 0;
    for n in 0..entries {
        let Some(e) = shown::entry_at(h, table, form, n) else {
            return None;
        };
        if place::is_indexed(e.kind as u64) {
            count += 1;
            last = n + 1;
        }
    }
    Some((count, last))
}

// Fills the first open place in turn, if there is one.
fn put(index: &mut [u32], first: usize, word: u32)
    requires { first < length index.old }
    ensures { index.new ≡ placed first word index.old }
{
    let mut at = first;
    for _i in 0..index.len() {
        if index[at] == 0 {
            index[at] = word;
            return;
        }
        at = place::next_place(index.len(), at);
    }
}

fn put_entry(h: &[u8], e: Entry, index: &mut [u32], word: u32)
    ensures { index.new ≡ entry_placed h.now (entry_of e) word index.old }
{
    let places = index.len();
    if places == 0 {
        return;
    }
    let first = place::first_place(places, e.kind, part::id_part(h, e), e.quoted);
    put(index, first, word);
}

// The entries to place, in table order.
fn place_all(h: &[u8], table: &[u64], form: Form, index: &mut [u32])
    ensures { PlacesAll form h.now table.now index.old index.new }
{
    let entries = table::count(table, form);
    for n in 0..entries {
        let e = table::get(table, form, n);
        if place::is_indexed(e.kind as u64) {
            put_entry(h, e, index, ((n + 1) % 0x1_0000_0000) as u32);
        }
    }
}

fn refuse(outcome: BuildOutcome) -> BuildAnswer
    ensures { result ≡ answer_of outcome 0 }
{
    BuildAnswer { outcome, placed: 0 }
}

// Clears the index and places the entries of kinds 2 to 6 in table order. The index stays if it is refused.
pub fn build_index(header: &[u8], table: &[u64], form: Form, index: &mut [u32]) -> BuildAnswer
    ensures answer { result ≡ build_answer (length index.old) (indexed_in form header.now table.now) }
    ensures index { index.new ≡ built_index form header.now table.now index.old }
{
    match tally(header, table, form) {
        None => refuse(Err(BuildRefusal::NotWellFormed)),
        Some((count, last)) => {
            if index.len() < count || 0xFFFF_FFFF < last {
                return refuse(Err(BuildRefusal::TooFewPlaces));
            }
            index.fill(0);
            place_all(header, table, form, index);
            BuildAnswer {
                outcome: Ok(()),
                placed: count,
            }
        }
    }
}
