// Numbers that stand for a while in those bits of an entry's first two words that no number of the entry has.
ghost use Rattle.std.specs.Prelude.{◌≡◌};
ghost use Rattle.entries.specs.Notes.{with_note, bare, note_at, noted};

use crate::form::Form;
use crate::table;

// The note of entry n; 0 past the table.
pub fn get(table: &[u64], form: Form, n: usize) -> usize
    ensures { result ≡ note_at form table.now n }
{
    if table::count(table, form) <= n {
        return 0;
    }
    let at = form.words() * n;
    (table[at] % 0x1000 * 0x1000 + table[at + 1] % 0x1000) as usize
}

// A word with the lowest 12 bits of x in place of its own.
fn with_note(w: u64, x: u64) -> u64
    ensures { result ≡ with_note w x }
{
    w / 0x1000 * 0x1000 + x % 0x1000
}

// Entry n's note becomes x, or what 24 bits hold of it.
pub fn set(table: &mut [u64], form: Form, n: usize, x: usize)
    ensures { table.new ≡ noted form table.old n x }
{
    if table::count(table, form) <= n {
        return;
    }
    let at = form.words() * n;
    let one = table[at];
    let two = table[at + 1];
    let note = x as u64;
    table[at] = with_note(one, note / 0x1000);
    table[at + 1] = with_note(two, note);
}

// Takes all notes away.
pub fn clear(table: &mut [u64])
    ensures { table.new ≡ bare table.old }
{
    for w in table.iter_mut() {
        *w = with_note(*w, 0);
    }
}
