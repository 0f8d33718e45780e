// The lent table. How an entry is stored is known here and to no caller.
ghost use Rattle.std.specs.Prelude.{◌≡◌, ltb, get_or};
ghost use Rattle.entries.specs.Values.{entry_of};
ghost use Rattle.entries.specs.Tables.{room, put, NextFits, first_entries, words_at, entry_in, words_clear};

use crate::entry::Entry;
use crate::form::Form;
use crate::word;

// How many entries the table has room for; words that are left over are never used.
pub fn count(table: &[u64], form: Form) -> usize
    ensures { result ≡ room form table.now }
{
    // By a constant each: a division by a number that is only known later takes as long as all else that is done with an entry.
    match form {
        Form::First => table.len() / 2,
        Form::Second => table.len() / 3,
    }
}

// The words of the table's first n entries.
pub fn kept(table: &[u64], form: Form, n: usize) -> &[u64]
    ensures { result.now ≡ first_entries form table.now n }
{
    if count(table, form) < n {
        return table;
    }
    &table[..form.words() * n]
}

// The words of entry n; none past the table.
fn words_at(table: &[u64], form: Form, n: usize) -> &[u64]
    ensures { result.now ≡ words_at form table.now n }
{
    if count(table, form) <= n {
        return &table[..0];
    }
    let size = form.words();
    let at = size * n;
    &table[at..at + size]
}

// The third of an entry's words; 0 where there is none.
fn third(words: &[u64]) -> u64
    ensures { result ≡ get_or words.now 2 0 }
{
    words.get(2).copied().unwrap_or(0)
}

// Entry n, from 0, well formed or not; past the table one of zeros.
pub fn get(table: &[u64], form: Form, n: usize) -> Entry
    ensures { entry_of result ≡ entry_in form table.now n }
{
    let words = words_at(table, form, n);
    if words.len() < 2 {
        return word::unpack(form, 0, 0, 0);
    }
    word::unpack(form, words[0], words[1], third(words))
}

// Whether the bits of entry n that no number has are 0, if there is such an entry.
pub fn is_clear(table: &[u64], form: Form, n: usize) -> bool
    ensures { result ≡ words_clear form table.now n }
{
    let words = words_at(table, form, n);
    if words.len() < 2 {
        return false;
    }
    word::is_clear(form, words[0], words[1], third(words))
}

// Stores entry n, if there is room for it.
pub fn put(table: &mut [u64], form: Form, n: usize, e: Entry) -> bool
    ensures room { result ≡ ltb n (room form table.old) }
    ensures table { table.new ≡ put form table.old n (entry_of e) }
    ensures next { NextFits n result }
{
    if count(table, form) <= n {
        return false;
    }
    let at = form.words() * n;
    table[at] = word::word_one(form, e);
    table[at + 1] = word::word_two(form, e);
    match form {
        Form::First => {}
        Form::Second => table[at + 2] = word::word_three(e),
    }
    true
}
