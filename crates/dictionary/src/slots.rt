// The first line of each ID, or of each number, found without looking at all lines. A slot is open, with a 0, or has the number plus 1 of a line's
// entry. An ID stands in its own slot or in one behind, with no open slot between; where none is open up to the end it stands in none.
ghost use Rattle.std.specs.Prelude.{◌≡◌, ◌≤◌, eqb};
ghost use Rattle.values.specs.Value.{meaning};
ghost use Rattle.dictionary.specs.Lines.{id_at};
ghost use Rattle.dictionary.specs.Slots.{is_named, is_numbered, slot_by, class_of, id_hash, number_hash, id_slot, number_slot, Looks};

use crate::line;
use entries::entry::Entry;
use entries::form::Form;
use entries::{part, table};
use values::{hash, string};

// What is looked for is in a slot, or the slot is open that it is due.
#[derive(Clone, Copy)]
pub enum Looked {
    Found(Entry),
    Open(usize),
    Full,
}

// One class of so many, in which hashes fall.
#[derive(Clone, Copy)]
pub struct Class {
    pub of: u64,
    pub at: u64,
}

// The slot of a hash. Those at the end are no hash's own, and left to what stands behind its own.
fn slot_by(slots: usize, hash: u64) -> usize
    ensures slot { result ≡ slot_by slots hash }
    ensures within { result ≤ slots }
{
    if slots == 0 {
        return 0;
    }
    (hash % ((slots - slots / 64) as u64)) as usize
}

// Of so many classes the one of a hash.
fn class_of(classes: u64, hash: u64) -> u64
    ensures { result ≡ class_of classes hash }
{
    if classes == 0 {
        return 0;
    }
    hash / 0x1_0000_0000 % classes
}

pub fn is_in(class: Class, hash: u64) -> bool
    ensures { result ≡ eqb (class_of class.of hash) class.at }
{
    class_of(class.of, hash) == class.at
}

pub fn id_hash(id: &[u8], quoted: bool) -> u64
    ensures { result ≡ id_hash (meaning quoted id.now) }
{
    hash::wide_step(hash::wide_from(hash::WIDE_BASIS, id, quoted), 0)
}

pub fn number_hash(n: u64) -> u64
    ensures { result ≡ number_hash n }
{
    hash::wide_step(hash::wide_step(hash::wide_step(n, 0), 0), 0)
}

// Numbers that are small, as they are where none is left out, have slots to themselves, a sixteenth of all; others share the rest.
fn number_slot(slots: usize, n: u64) -> usize
    ensures { result ≡ number_slot slots n }
{
    let own = slots / 16;
    if n < (own as u64) {
        return n as usize;
    }
    own + slot_by(slots - own, number_hash(n))
}

fn wide(n: u32) -> usize
    ensures { result ≡ n }
{
    n as usize
}

// Looks for the ID of an entry, by its hash.
pub fn look_id(h: &[u8], kept: &[u64], form: Form, e: Entry, hash: u64, slots: &[u32]) -> Looked
    requires { hash ≡ id_hash (id_at h.now e) }
    ensures { Looks is_named id_slot form h.now kept.now slots.now (id_at h.now e) result }
{
    let id = part::id_part(h, e);
    for at in slot_by(slots.len(), hash)..slots.len() {
        let word = wide(slots[at]);
        if word == 0 {
            return Looked::Open(at);
        }
        let x = table::get(kept, form, word - 1);
        if string::same_meaning(part::id_part(h, x), x.quoted, id, e.quoted) {
            return Looked::Found(x);
        }
    }
    Looked::Full
}

pub fn look_number(h: &[u8], kept: &[u64], form: Form, n: u64, slots: &[u32]) -> Looked
    ensures { Looks is_numbered number_slot form h.now kept.now slots.now n result }
{
    for at in number_slot(slots.len(), n)..slots.len() {
        let word = wide(slots[at]);
        if word == 0 {
            return Looked::Open(at);
        }
        let x = table::get(kept, form, word - 1);
        if line::has_idx(h, x, n) {
            return Looked::Found(x);
        }
    }
    Looked::Full
}
