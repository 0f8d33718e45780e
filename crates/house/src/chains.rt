// Where the entries of a key stand in a header of very many entries, so that they are found without looking at all. Each key has a slot, by
// its hash. The note of an entry is the number of the next entry of its slot, and whether its line is written: there are too many entries
// for the stack, so that these stand in the table for a while.
ghost use Rattle.std.specs.Prelude.{◌≡◌, ◌^◌, ◌≤◌, ◌<◌, length};
ghost use Rattle.entries.specs.Tables.{room};
ghost use Rattle.house.specs.Chains.{is_written, next_at, written_at, Headless, LinksEntry, LinksRange, LinksAll};

use crate::links;
use entries::form::Form;
use entries::{notes, table};

// What is added to the link of an entry whose line is written; no entry has this number, nor the one before it.
const WRITTEN: usize = 0x80_0000;

// Entry number k becomes the head of its slot, if that is one of those from number `from` on that have heads, and the head that was there
// its link.
fn link_entry(
    h: &[u8],
    kept: &mut [u64],
    form: Form,
    slots: usize,
    from: usize,
    heads: &mut [u32],
    k: usize,
)
    requires some { 0 < slots }
    requires few { k < 2 ^ 23 }
    ensures { LinksEntry form h.now slots from k heads.old kept.old heads.new kept.new }
{
    let slot = links::slot_in(h, table::get(kept, form, k), slots);
    if slot < from {
        return;
    }
    let at = slot - from;
    if heads.len() <= at {
        return;
    }
    let next = links::number_at(heads, at);
    heads[at] = k as u32;
    notes::set(kept, form, k, next);
}

// Links the entries whose slots have heads, from the last one to the first.
fn link_by(h: &[u8], kept: &mut [u64], form: Form, slots: usize, from: usize, heads: &mut [u32])
    requires some { 0 < slots }
    requires few { room form kept.old < 2 ^ 23 }
    requires headless { Headless heads.old }
    ensures { LinksRange form h.now slots from (length heads.old) kept.old kept.new }
{
    for k in (0..table::count(kept, form)).rev() {
        link_entry(h, kept, form, slots, from, heads, k);
    }
}

// How many slots have an entry.
fn count_used(heads: &[u32]) -> usize
    ensures { result ≤ length heads.now }
{
    // Kept: `filter` and `count` take twice as long.
    let mut n: usize = 0;
    for head in heads {
        if *head < 0x7F_FFFF {
            n += 1;
        }
    }
    n
}

// Links the entries of the slots from number `from` on, as many as there are heads; and how many of these slots have an entry.
fn link_range(h: &[u8], kept: &mut [u64], form: Form, slots: usize, from: usize) -> usize
    requires some { 0 < slots }
    requires few { room form kept.old < 2 ^ 23 }
    ensures { LinksRange form h.now slots from 196608 kept.old kept.new }
{
    let mut heads = [0x7F_FFFFu32; 196608];
    link_by(h, kept, form, slots, from, &mut heads);
    count_used(&heads)
}

// Links all entries whose keys are not typed, by four times as many slots as there are heads, a quarter of them at a time. Where few slots of
// a quarter have an entry there are so few keys that as many slots as heads are enough, and one pass links all.
pub fn link_all(h: &[u8], kept: &mut [u64], form: Form)
    requires { room form kept.old < 2 ^ 23 }
    ensures { LinksAll form h.now kept.old kept.new }
{
    for quarter in 0..4 {
        let used = link_range(h, kept, form, 786432, 196608 * quarter);
        if used < 24576 {
            link_range(h, kept, form, 196608, 0);
            return;
        }
    }
}

// Where the next entry of the slot of entry number k stands; `end` if there is none.
pub fn next_of(kept: &[u64], form: Form, k: usize, end: usize) -> usize
    ensures { result ≡ next_at form kept.now k end }
{
    let next = notes::get(kept, form, k) % WRITTEN;
    if k < next {
        return next;
    }
    end
}

pub fn is_written(kept: &[u64], form: Form, k: usize) -> bool
    ensures { result ≡ is_written form kept.now k }
{
    WRITTEN <= notes::get(kept, form, k)
}

// The link of an entry stays as it is.
pub fn mark_written(kept: &mut [u64], form: Form, k: usize)
    ensures { kept.new ≡ written_at form kept.old k }
{
    let link = notes::get(kept, form, k) % WRITTEN;
    notes::set(kept, form, k, link + WRITTEN);
}
