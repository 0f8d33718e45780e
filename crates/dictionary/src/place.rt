// The number of a line beside the lines before it.
ghost use Rattle.std.specs.Prelude.{◌≡◌, ◌+◌, None};
ghost use Rattle.entries.specs.Values.{entry_of};
ghost use Rattle.dictionary.specs.Lines.{id_at, idx_at, is_implied, table_lines, lines_before};
ghost use Rattle.dictionary.specs.Places.{implied_clash, idx_named, earlier_meant, number_seen, seen_in, indexed_beside, counted_beside, place_if, place_at};
ghost use Rattle.dictionary.specs.Slots.{is_named, is_numbered, class_of, id_hash, number_hash, id_slot, number_slot, Stands, StandsAt, HeldAt};
ghost use Rattle.dictionary.specs.Marks.{is_again, line_number, beside_by, beside_at, Tells};

use crate::line::Dictionary;
use crate::slots::{Class, Looked};
use crate::{line, slots};
use entries::entry::Entry;
use entries::form::Form;
use entries::{part, table};
use values::{bits, string};

// The form of the entries, the dictionary whose lines are numbered, whether these carry IDX, and how many they are.
#[derive(Clone, Copy)]
pub struct Asked {
    pub form: Form,
    pub dictionary: Dictionary,
    pub indexed: bool,
    pub lines: usize,
}

// What a line is beside those before it: of a new ID; of one that was met, with the same number; or it clashes with one of them.
#[derive(Clone, Copy)]
pub enum Beside {
    New,
    Again,
    Clash,
}

// A line's ID is new, with its number, or due the next one; it was met with the same number; or the line clashes with one before.
#[derive(Clone, Copy)]
pub enum Placed {
    Numbered(u64),
    Due,
    Again,
    Clash,
}

fn find_id(h: &[u8], ahead: &[u64], form: Form, dictionary: Dictionary, e: Entry) -> Option<Entry>
    ensures { earlier_meant h.now result ≡ idx_named (id_at h.now e) (table_lines dictionary form h.now ahead.now) }
{
    let id = part::id_part(h, e);
    for k in 0..table::count(ahead, form) {
        let x = table::get(ahead, form, k);
        if line::has_kind(dictionary, x.kind)
            && string::same_meaning(part::id_part(h, x), x.quoted, id, e.quoted)
        {
            return Some(x);
        }
    }
    None
}

fn has_number(h: &[u8], ahead: &[u64], form: Form, dictionary: Dictionary, n: u64) -> bool
    ensures { result ≡ number_seen n (table_lines dictionary form h.now ahead.now) }
{
    for k in 0..table::count(ahead, form) {
        let x = table::get(ahead, form, k);
        if line::has_kind(dictionary, x.kind) && line::has_idx(h, x, n) {
            return true;
        }
    }
    false
}

// The first line before entry k that has the ID of e, which is of the class. Where there is none, the line of entry k is that from now on.
pub fn find_earlier(
    h: &[u8],
    kept: &[u64],
    asked: Asked,
    class: Class,
    e: Entry,
    hash: u64,
    k: usize,
    ids: &mut [u32],
) -> Option<Entry>
    requires hash_value { hash ≡ id_hash (id_at h.now e) }
    requires e_value { class_of class.of (id_hash (id_at h.now e)) ≡ class.at }
    requires stands { Stands is_named asked.dictionary asked.form h.now kept.now k (id_at h.now e) }
    requires held_at { HeldAt is_named id_slot id_hash class asked.dictionary asked.form h.now kept.now k ids.old }
    ensures earlier { earlier_meant h.now result ≡ idx_named (id_at h.now e) (lines_before asked.dictionary asked.form h.now kept.now k) }
    ensures ids { HeldAt is_named id_slot id_hash class asked.dictionary asked.form h.now kept.now (k + 1) ids.new }
{
    let form = asked.form;
    let dictionary = asked.dictionary;
    // A slot has no room for a larger number.
    if 0xFFFF_FFFE < k {
        return find_id(h, table::kept(kept, form, k), form, dictionary, e);
    }
    match slots::look_id(h, kept, form, e, hash, ids) {
        Looked::Found(x) => Some(x),
        Looked::Open(at) => {
            ids[at] = (k + 1) as u32;
            None
        }
        Looked::Full => find_id(h, table::kept(kept, form, k), form, dictionary, e),
    }
}

// Whether a line before entry k carries the number n, which is of the class. Where there is none, the line of entry k is the first that does.
pub fn is_taken(
    h: &[u8],
    kept: &[u64],
    asked: Asked,
    class: Class,
    n: u64,
    k: usize,
    numbers: &mut [u32],
) -> bool
    requires n_value { class_of class.of (number_hash n) ≡ class.at }
    requires stands { Stands is_numbered asked.dictionary asked.form h.now kept.now k n }
    requires held_at { HeldAt is_numbered number_slot number_hash class asked.dictionary asked.form h.now kept.now k numbers.old }
    ensures taken { result ≡ number_seen n (lines_before asked.dictionary asked.form h.now kept.now k) }
    ensures numbers { HeldAt is_numbered number_slot number_hash class asked.dictionary asked.form h.now kept.now (k + 1) numbers.new }
{
    let form = asked.form;
    let dictionary = asked.dictionary;
    if 0xFFFF_FFFE < k {
        return has_number(h, table::kept(kept, form, k), form, dictionary, n);
    }
    match slots::look_number(h, kept, form, n, numbers) {
        Looked::Found(_) => true,
        Looked::Open(at) => {
            numbers[at] = (k + 1) as u32;
            false
        }
        Looked::Full => has_number(h, table::kept(kept, form, k), form, dictionary, n),
    }
}

// Only PASS is 0.
pub fn clashes_implied(h: &[u8], dictionary: Dictionary, e: Entry, n: u64) -> bool
    ensures { result ≡ implied_clash dictionary (id_at h.now e) n }
{
    match dictionary {
        Dictionary::Strings => {
            if line::is_implied(h, e, dictionary) {
                n != 0
            } else {
                n == 0
            }
        }
        Dictionary::Contigs => false,
    }
}

// Whether a line carries the IDX of one before, and may, if lines carry it.
pub fn is_again(h: &[u8], asked: Asked, e: Entry, before: Entry) -> bool
    ensures { result ≡ is_again asked.indexed (implied_clash asked.dictionary (id_at h.now e)) (idx_at h.now e) (idx_at h.now before) }
{
    if !asked.indexed {
        return true;
    }
    let Some(n) = line::line_idx(h, e) else {
        return false;
    };
    !clashes_implied(h, asked.dictionary, e, n) && line::has_idx(h, before, n)
}

// What a line of a new ID is beside those ahead.
fn place_new(h: &[u8], ahead: &[u64], asked: Asked, e: Entry) -> Beside
    ensures { result ≡ beside_by asked.indexed (implied_clash asked.dictionary (id_at h.now e)) (idx_at h.now e) None
        (seen_in asked.dictionary asked.form h.now ahead.now) }
{
    let dictionary = asked.dictionary;
    if !asked.indexed {
        return Beside::New;
    }
    let Some(n) = line::line_idx(h, e) else {
        return Beside::Clash;
    };
    if has_number(h, ahead, asked.form, dictionary, n) || clashes_implied(h, dictionary, e, n) {
        return Beside::Clash;
    }
    Beside::New
}

// What a line is beside those ahead, by a look at all of them.
fn search_beside(h: &[u8], ahead: &[u64], asked: Asked, e: Entry) -> Beside
    ensures { result ≡ beside_by asked.indexed (implied_clash asked.dictionary (id_at h.now e)) (idx_at h.now e)
        (idx_named (id_at h.now e) (table_lines asked.dictionary asked.form h.now ahead.now))
        (seen_in asked.dictionary asked.form h.now ahead.now) }
{
    let form = asked.form;
    let dictionary = asked.dictionary;
    match find_id(h, ahead, form, dictionary, e) {
        Some(x) => {
            if is_again(h, asked, e, x) {
                Beside::Again
            } else {
                Beside::Clash
            }
        }
        None => place_new(h, ahead, asked, e),
    }
}

// What the line of entry k is beside those before it, by its marks.
fn find_beside(
    h: &[u8],
    kept: &[u64],
    asked: Asked,
    e: Entry,
    k: usize,
    line: usize,
    marks: &[u64],
) -> Beside
    requires stands_at { StandsAt asked.dictionary asked.form kept.now k e }
    requires line_value { line ≡ line_number asked h.now kept.now k }
    requires tells { Tells asked h.now kept.now marks.now }
    ensures { result ≡ beside_at asked h.now kept.now k }
{
    let form = asked.form;
    if marks.len() <= line / 32 {
        return search_beside(h, table::kept(kept, form, k), asked, e);
    }
    if bits::is_set(marks, 2 * line) {
        return Beside::Again;
    }
    if bits::is_set(marks, 2 * line + 1) {
        return Beside::Clash;
    }
    Beside::New
}

// Where lines carry IDX.
fn place_indexed(h: &[u8], e: Entry, beside: Beside, needed: bool) -> Placed
    ensures { result ≡ place_if needed (indexed_beside (idx_at h.now e) beside) }
{
    match beside {
        Beside::New => {
            if needed {
                let Some(n) = line::line_idx(h, e) else {
                    return Placed::Numbered(0);
                };
                return Placed::Numbered(n);
            }
            Placed::Numbered(0)
        }
        Beside::Again => Placed::Again,
        Beside::Clash => Placed::Clash,
    }
}

// Where they don't.
fn place_counted(h: &[u8], dictionary: Dictionary, e: Entry, beside: Beside) -> Placed
    ensures { result ≡ counted_beside (is_implied h.now dictionary (entry_of e)) beside }
{
    match beside {
        Beside::New => {
            if line::is_implied(h, e, dictionary) {
                Placed::Numbered(0)
            } else {
                Placed::Due
            }
        }
        Beside::Again | Beside::Clash => Placed::Again,
    }
}

// The line of entry k, beside those before it; its number only if it is needed, since reading it takes longest.
pub fn place_line(
    h: &[u8],
    kept: &[u64],
    asked: Asked,
    e: Entry,
    k: usize,
    line: usize,
    marks: &[u64],
    needed: bool,
) -> Placed
    requires stands_at { StandsAt asked.dictionary asked.form kept.now k e }
    requires line_value { line ≡ line_number asked h.now kept.now k }
    requires tells { Tells asked h.now kept.now marks.now }
    ensures { result ≡ place_if needed (place_at asked.indexed asked.dictionary asked.form h.now kept.now k e) }
{
    let beside = find_beside(h, kept, asked, e, k, line, marks);
    if asked.indexed {
        place_indexed(h, e, beside, needed)
    } else {
        place_counted(h, asked.dictionary, e, beside)
    }
}
