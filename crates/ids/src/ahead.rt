// Names that lines still to be read have, as notes: an entry whose names were not noted need not be marked.
ghost use Rattle.std.specs.Prelude.{◌≡◌};
ghost use Rattle.entries.specs.Values.{entry_of};
ghost use Rattle.ids.specs.Ahead.{note_id, note_key, note_names};

use crate::{names, notes};
use entries::entry::Entry;
use entries::{kind, part};

fn note_id(h: &[u8], key: u64, e: Entry, notes: &mut [u64])
    ensures { notes.new ≡ note_id h.now key (entry_of e) notes.old }
{
    notes::note_text(notes, part::id_part(h, e), e.quoted);
    notes::note_hash(notes, names::id_hash(h, key, e));
}

fn note_key(notes: &mut [u64], key: u64, kind: u8)
    ensures { notes.new ≡ note_key key kind notes.old }
{
    let rival = names::other_sort(kind);
    notes::note_sort(notes, rival);
    notes::note_hash(notes, names::under_hash(key, rival));
}

// Notes what an entry before it may have that a line ahead, whose entry this is, would clash with.
pub fn note_names(h: &[u8], e: Entry, notes: &mut [u64])
    ensures { notes.new ≡ note_names h.now (entry_of e) notes.old }
{
    let key = names::key_hash(h, e);
    if e.kind < kind::OTHER_MAP {
        note_id(h, key, e, notes);
        return;
    }
    note_key(notes, key, e.kind);
    if e.kind == kind::OTHER_MAP {
        note_id(h, key, e, notes);
    }
}
