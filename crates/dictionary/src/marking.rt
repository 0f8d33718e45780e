// Bits that tell what a dictionary's lines are beside those before them: bit 2n that the ID of line n was met, with the same number; bit 2n + 1 that, but
// for that, it clashes. IDs, and numbers, are looked for one class after the other, so that the slots have room for all of a class.
ghost use Rattle.std.specs.Prelude.{◌≡◌, ◌+◌, ◌<◌};
ghost use Rattle.entries.specs.Tables.{room};
ghost use Rattle.dictionary.specs.Lines.{id_at, idx_at};
ghost use Rattle.dictionary.specs.Places.{implied_clash, earlier_meant};
ghost use Rattle.dictionary.specs.Slots.{is_named, is_numbered, id_hash, number_hash, id_slot, number_slot, AllOpen, StandsAt, HeldAt};
ghost use Rattle.dictionary.specs.Marks.{Sets, line_number, met_bits, line_bits, class_bits, sought_bits, all_bits, HeldFor};
ghost use Rattle.dictionary.specs.declared.marking.Sought.TheVariants.{Ids, Numbers};

use crate::place::Asked;
use crate::slots::Class;
use crate::{line, place, slots};
use entries::entry::Entry;
use entries::{part, table};
use values::bits;

// What is looked for.
#[derive(Clone, Copy)]
pub enum Sought {
    Ids,
    Numbers,
}

// For a line whose ID was looked for. Lines are so few that twice the number of one is a number too.
fn mark_met(
    h: &[u8],
    asked: Asked,
    e: Entry,
    line: usize,
    earlier: Option<Entry>,
    marks: &mut [u64],
)
    requires { line < 9223372036854775808 }
    ensures { Sets marks.old marks.new (met_bits asked.indexed (implied_clash asked.dictionary (id_at h.now e)) (idx_at h.now e) (earlier_meant h.now earlier) line) }
{
    let Some(x) = earlier else {
        return;
    };
    let at = 2 * line;
    if place::is_again(h, asked, e, x) {
        bits::set(marks, at);
    } else {
        bits::set(marks, at + 1);
    }
}

fn mark_id(
    h: &[u8],
    kept: &[u64],
    asked: Asked,
    class: Class,
    e: Entry,
    entry: usize,
    line: usize,
    marks: &mut [u64],
    slots: &mut [u32],
)
    requires stands_at { StandsAt asked.dictionary asked.form kept.now entry e }
    requires line_value { line ≡ line_number asked h.now kept.now entry }
    requires held_at { HeldAt is_named id_slot id_hash class asked.dictionary asked.form h.now kept.now entry slots.old }
    ensures marks { Sets marks.old marks.new (line_bits Ids asked h.now kept.now class entry) }
    ensures slots { HeldAt is_named id_slot id_hash class asked.dictionary asked.form h.now kept.now (entry + 1) slots.new }
{
    let hash = slots::id_hash(part::id_part(h, e), e.quoted);
    if slots::is_in(class, hash) {
        let earlier = place::find_earlier(h, kept, asked, class, e, hash, entry, slots);
        mark_met(h, asked, e, line, earlier, marks);
    }
}

fn mark_number(
    h: &[u8],
    kept: &[u64],
    asked: Asked,
    class: Class,
    e: Entry,
    entry: usize,
    line: usize,
    marks: &mut [u64],
    slots: &mut [u32],
)
    requires stands_at { StandsAt asked.dictionary asked.form kept.now entry e }
    requires line_value { line ≡ line_number asked h.now kept.now entry }
    requires held_at { HeldAt is_numbered number_slot number_hash class asked.dictionary asked.form h.now kept.now entry slots.old }
    ensures marks { Sets marks.old marks.new (line_bits Numbers asked h.now kept.now class entry) }
    ensures slots { HeldAt is_numbered number_slot number_hash class asked.dictionary asked.form h.now kept.now (entry + 1) slots.new }
{
    let at = 2 * line + 1;
    let dictionary = asked.dictionary;
    match line::line_idx(h, e) {
        Some(n) => {
            if slots::is_in(class, slots::number_hash(n))
                && (place::is_taken(h, kept, asked, class, n, entry, slots)
                    || place::clashes_implied(h, dictionary, e, n))
            {
                bits::set(marks, at);
            }
        }
        None => {
            if slots::is_in(class, 0) {
                bits::set(marks, at);
            }
        }
    }
}

fn mark_line(
    h: &[u8],
    kept: &[u64],
    asked: Asked,
    sought: Sought,
    class: Class,
    e: Entry,
    entry: usize,
    line: usize,
    marks: &mut [u64],
    slots: &mut [u32],
)
    requires stands_at { StandsAt asked.dictionary asked.form kept.now entry e }
    requires line_value { line ≡ line_number asked h.now kept.now entry }
    requires held_for { HeldFor sought class asked h.now kept.now entry slots.old }
    ensures marks { Sets marks.old marks.new (line_bits sought asked h.now kept.now class entry) }
    ensures slots { HeldFor sought class asked h.now kept.now (entry + 1) slots.new }
{
    match sought {
        Sought::Ids => mark_id(h, kept, asked, class, e, entry, line, marks, slots),
        Sought::Numbers => mark_number(h, kept, asked, class, e, entry, line, marks, slots),
    }
}

fn mark_lines(
    h: &[u8],
    kept: &[u64],
    asked: Asked,
    sought: Sought,
    class: Class,
    marks: &mut [u64],
    slots: &mut [u32],
)
    requires { AllOpen slots.old }
    ensures { Sets marks.old marks.new (class_bits sought asked h.now kept.now class (room asked.form kept.now)) }
{
    let form = asked.form;
    let dictionary = asked.dictionary;
    let mut lines = 0;
    for k in 0..table::count(kept, form) {
        let e = table::get(kept, form, k);
        if line::has_kind(dictionary, e.kind) {
            mark_line(h, kept, asked, sought, class, e, k, lines, marks, slots);
            lines += 1;
        }
    }
}

// With so many slots of its own. They are in a function of its own, so that a call that needs few does not touch the stack of all.
#[inline(never)]
fn mark_with<const SLOTS: usize>(
    h: &[u8],
    kept: &[u64],
    asked: Asked,
    sought: Sought,
    class: Class,
    marks: &mut [u64],
)
    requires { SLOTS < 4294967296 }
    ensures { Sets marks.old marks.new (class_bits sought asked h.now kept.now class (room asked.form kept.now)) }
{
    let mut slots = [0u32; SLOTS];
    mark_lines(h, kept, asked, sought, class, marks, &mut slots);
}

// Few lines need few slots, and clearing more costs more than it spares.
fn mark_class(h: &[u8], kept: &[u64], asked: Asked, sought: Sought, class: Class, marks: &mut [u64])
    ensures { Sets marks.old marks.new (class_bits sought asked h.now kept.now class (room asked.form kept.now)) }
{
    match asked.lines {
        0..512 => mark_with::<1024>(h, kept, asked, sought, class, marks),
        512..4096 => mark_with::<8192>(h, kept, asked, sought, class, marks),
        4096..32768 => mark_with::<65536>(h, kept, asked, sought, class, marks),
        _ => mark_with::<163840>(h, kept, asked, sought, class, marks),
    }
}

// In so many classes.
fn mark_sought(h: &[u8], kept: &[u64], asked: Asked, sought: Sought, of: u64, marks: &mut [u64])
    ensures { Sets marks.old marks.new (sought_bits sought asked h.now kept.now of of) }
{
    for at in 0..of {
        mark_class(h, kept, asked, sought, Class { of, at }, marks);
    }
}

// The slots for most lines have room for those of a class, and some more.
pub fn mark(h: &[u8], kept: &[u64], asked: Asked, marks: &mut [u64])
    ensures { Sets marks.old marks.new (all_bits asked h.now kept.now) }
{
    let classes = (asked.lines / 98304) as u64 + 1;
    mark_sought(h, kept, asked, Sought::Ids, classes, marks);
    if asked.indexed {
        mark_sought(h, kept, asked, Sought::Numbers, classes, marks);
    }
}
