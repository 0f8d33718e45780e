// Where the entries of a key stand, so that they are found without looking at all. A key that is not typed has a slot, by its hash; a head
// is the number of the first entry of its slot, and the link of number k, of the entry before number k, is that of the next entry of this
// one's slot, or a smaller one where several numbers have one link.
ghost use Rattle.std.specs.Prelude.{◌≡◌, ◌≤◌, length, get_or};
ghost use Rattle.entries.specs.Values.{entry_of};
ghost use Rattle.house.specs.Links.{slot_of, slot_in, cell_of, TakesPlace, Lowers, Links, NextIs, PassesOther};

use crate::keys;
use entries::entry::Entry;
use entries::form::Form;
use entries::table;
use values::hash;

// The slot of a key, among so many.
pub fn slot_of(slots: usize, prefix: &[u8]) -> usize
    ensures { result ≡ slot_of slots prefix.now }
{
    if slots == 0 {
        return 0;
    }
    let hash = hash::wide_from(hash::WIDE_BASIS, prefix, false);
    (hash::wide_step(hash, 0) % (slots as u64)) as usize
}

// That of an entry's key; past them if the key is typed.
pub fn slot_in(h: &[u8], e: Entry, slots: usize) -> usize
    ensures { result ≡ slot_in h.now slots (entry_of e) }
{
    if !keys::is_other(e) {
        return slots;
    }
    slot_of(slots, keys::prefix_part(h, e))
}

fn wide(n: u32) -> usize
    ensures { result ≡ n }
{
    n as usize
}

// The number that is kept in a slot or as a link; 0 past them.
pub fn number_at(numbers: &[u32], at: usize) -> usize
    ensures { result ≡ get_or numbers.now at 0 }
{
    if numbers.len() <= at {
        return 0;
    }
    wide(numbers[at])
}

// The largest number of 32 bits that is no larger.
fn short_of(n: usize) -> u32
    ensures { result ≤ n }
{
    if n < 0xFFFF_FFFF {
        return n as u32;
    }
    0xFFFF_FFFF
}

// Entry number k becomes the head of its slot, and the head that was there is given back.
fn take_place(h: &[u8], e: Entry, k: usize, heads: &mut [u32]) -> u32
    ensures { TakesPlace h.now (entry_of e) k heads.old result heads.new }
{
    if !keys::is_other(e) {
        return 0xFFFF_FFFF;
    }
    let slot = slot_of(heads.len(), keys::prefix_part(h, e));
    if heads.len() <= slot {
        return 0xFFFF_FFFF;
    }
    let next = heads[slot];
    heads[slot] = short_of(k);
    next
}

// Where the link of number k is kept. A remainder takes a division, which few links need.
fn cell_of(links: &[u32], k: usize) -> usize
    ensures { result ≡ cell_of (length links.now) k }
{
    if k < links.len() {
        return k;
    }
    if links.len() == 0 {
        return 0;
    }
    k % links.len()
}

// The link of number k becomes `next`, if it is larger.
fn lower(links: &mut [u32], k: usize, next: u32)
    ensures { Lowers links.old k next links.new }
{
    let cell = cell_of(links, k);
    if links.len() <= cell {
        return;
    }
    if next < links[cell] {
        links[cell] = next;
    }
}

// Links all entries that have slots, whatever stands in `heads` and `links`.
pub fn link_all(h: &[u8], kept: &[u64], form: Form, heads: &mut [u32], links: &mut [u32])
    ensures { Links form h.now kept.now heads.new links.new 0 }
{
    for k in (0..table::count(kept, form)).rev() {
        let next = take_place(h, table::get(kept, form, k), k, heads);
        lower(links, k + 1, next);
    }
}

// Where the next entry of a slot may stand, after one of this slot, which is the one before number k.
pub fn next_of(slot: usize, heads: &[u32], links: &[u32], k: usize) -> usize
    ensures { NextIs slot heads.now links.now k result }
{
    if heads.len() <= slot {
        return k;
    }
    let next = number_at(links, cell_of(links, k));
    if next < k {
        return k;
    }
    next
}

// The same after any entry: number k, if it is not of this slot.
pub fn pass_other(h: &[u8], e: Entry, slot: usize, heads: &[u32], links: &[u32], k: usize) -> usize
    ensures { PassesOther h.now (entry_of e) slot heads.now links.now k result }
{
    if heads.len() <= slot {
        return k;
    }
    if slot_in(h, e, heads.len()) != slot {
        return k;
    }
    next_of(slot, heads, links, k)
}
