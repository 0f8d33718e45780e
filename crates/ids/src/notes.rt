// Notes of names, one or two bits each: a name of which one is not set was not noted.
ghost use Rattle.std.specs.Prelude.{◌≡◌};
ghost use Rattle.ids.specs.Ahead.{note_hash, hash_noted, note_text, quoted_noted, text_near, note_sort, sort_noted};

use crate::names;
use values::{hash, marks};

// Noted where an ID ahead stands between quotes: its bytes may not be those that it means.
const QUOTED: u64 = 0x1_0000_0000;

// By two bits, which few of very many other hashes have.
pub fn note_hash(notes: &mut [u64], hash: u64)
    ensures { notes.new ≡ note_hash notes.old hash }
{
    let once = hash::wide_step(hash, 0);
    marks::note(notes, once);
    marks::note(notes, hash::wide_step(once, 0));
}

pub fn is_hash_noted(notes: &[u64], hash: u64) -> bool
    ensures { result ≡ hash_noted notes.now hash }
{
    let once = hash::wide_step(hash, 0);
    marks::is_noted(notes, once) && marks::is_noted(notes, hash::wide_step(once, 0))
}

// The last bytes of an ID ahead.
pub fn note_text(notes: &mut [u64], text: &[u8], quoted: bool)
    ensures { notes.new ≡ note_text quoted text.now notes.old }
{
    if quoted {
        marks::note(notes, QUOTED);
    } else if 8 <= text.len() {
        marks::note(notes, names::tail_hash(text, text.len()));
    }
}

// Whether an ID ahead stands so.
pub fn is_quoted_noted(notes: &[u64]) -> bool
    ensures { result ≡ quoted_noted notes.now }
{
    marks::is_noted(notes, QUOTED)
}

// Whether an ID ahead may mean what this one does, by its last bytes: a cheap test that most IDs fail.
pub fn is_text_near(notes: &[u64], text: &[u8], quoted: bool) -> bool
    ensures { result ≡ text_near notes.now quoted text.now }
{
    quoted
        || text.len() < 8
        || is_quoted_noted(notes)
        || marks::is_noted(notes, names::tail_hash(text, text.len()))
}

// That a line ahead goes with no record of this kind under its key.
pub fn note_sort(notes: &mut [u64], kind: u8)
    ensures { notes.new ≡ note_sort notes.old kind }
{
    marks::note(notes, (kind as u64) * 0x1_0000_0000);
}

pub fn is_sort_noted(notes: &[u64], kind: u8) -> bool
    ensures { result ≡ sort_noted notes.now kind }
{
    marks::is_noted(notes, (kind as u64) * 0x1_0000_0000)
}
