// Whether many entries are well formed. Most have an ID and no tag, and such entries of the first form are looked at several at once.
ghost use Rattle.std.specs.Prelude.{◌≡◌, ◌-◌, ◌≤◌, ◌<◌};
ghost use Rattle.entries.specs.Tables.{all_formed, ArePlain};

use crate::form::Form;
use crate::{shown, word};

// Whether the entries of the first form from number `from` up to `to` have an ID and no tag, and are well formed in a header of `size` bytes.
fn are_plain(size: usize, table: &[u64], from: usize, to: usize) -> bool
    ensures { ArePlain size table.now from to result }
{
    if table.len() / 2 < to || 0xFFFF_FFFF < size {
        return false;
    }
    let room = 0x7FFF_FFFF_FFFF_FFFF - (size as u64);
    let mut strays: u64 = 0;
    let mut excess: u64 = 0;
    for n in from..to {
        let w = table[2 * n];
        let x = table[2 * n + 1];
        strays |= word::strays(w, x);
        excess |= word::excess(room, w, x);
    }
    strays == 0 && excess < 0x8000_0000_0000_0000
}

// Whether the entries from number `from` up to `to` are well formed in the header.
fn are_formed(h: &[u8], table: &[u64], form: Form, from: usize, to: usize) -> bool
    ensures { result ≡ all_formed form h.now table.now from (to - from) }
{
    if matches!(form, Form::First) && are_plain(h.len(), table, from, to) {
        return true;
    }
    for n in from..to {
        if !shown::is_entry(h.len(), table, form, n) {
            return false;
        }
    }
    true
}

// Where a block of entries ends that begins at number n: few enough, so that one entry of another sort costs no more than these.
fn block_end(n: usize, count: usize) -> usize
    requires { n < count }
    ensures later { n < result }
    ensures inside { result ≤ count }
{
    n + (count - n).min(64)
}

// Whether the table's first entries are all well formed in the header, block by block.
pub fn all_formed(h: &[u8], table: &[u64], form: Form, count: usize) -> bool
    ensures { result ≡ all_formed form h.now table.now 0 count }
{
    let mut n: usize = 0;
    // Kept: no plainer: a `for n in (0..count).step_by(64)` needs `block_end` and a measure too.
    while n < count {
        let end = block_end(n, count);
        if !are_formed(h, table, form, n, end) {
            return false;
        }
        n = end;
    }
    true
}
