// Hashes of the names of an entry: its key, its ID under that, and the last bytes of its ID.
ghost use Rattle.std.specs.Prelude.{◌≡◌, ◌+◌, ◌^◌, ◌≤◌, ◌<◌, length, get_or};
ghost use Rattle.rules.specs.Shown.{id_meaning};
ghost use Rattle.entries.specs.Values.{entry_of};
ghost use Rattle.ids.specs.Names.{key_hash, prefix_hash, under_hash, id_hash, other_sort, four_at, tail_hash};

use entries::entry::Entry;
use entries::{kind, part};
use values::{bytes, hash};

// What the hashes of an entry begin with: that of an other record's key.
pub fn key_hash(h: &[u8], e: Entry) -> u64
    ensures { result ≡ key_hash h.now (entry_of e) }
{
    if e.kind < kind::OTHER_MAP {
        return hash::WIDE_BASIS;
    }
    let line = part::line_part(h, e);
    let end = bytes::find(line, 2, b'=');
    hash::wide_from(hash::WIDE_BASIS, bytes::part(line, 2, end), false)
}

// What a new entry's hashes begin with, by its `##key=`.
pub fn prefix_hash(prefix: &[u8], kind: u8) -> u64
    ensures { result ≡ prefix_hash prefix.now kind }
{
    if kind < kind::OTHER_MAP || prefix.len() < 3 {
        return hash::WIDE_BASIS;
    }
    let end = prefix.len() - 1;
    hash::wide_from(hash::WIDE_BASIS, &prefix[2..end], false)
}

pub fn under_hash(key: u64, kind: u8) -> u64
    ensures { result ≡ under_hash key kind }
{
    hash::wide_step(key, kind as u16)
}

// The ID of an entry, under its key.
pub fn id_hash(h: &[u8], key: u64, e: Entry) -> u64
    ensures { result ≡ id_hash key e.kind (id_meaning h.now (entry_of e)) }
{
    hash::wide_from(under_hash(key, e.kind), part::id_part(h, e), e.quoted)
}

// The kind that a record must not stand beside under its key: a text beside a map, a map beside a text.
pub fn other_sort(kind: u8) -> u8
    ensures { result ≡ other_sort kind }
{
    if kind == kind::OTHER_MAP {
        kind::OTHER_TEXT
    } else {
        kind::OTHER_MAP
    }
}

// Four bytes as a number: they lie side by side, so that they are read at once.
fn four(h: &[u8], at: usize) -> u64
    requires { at + 4 ≤ length h.now }
    ensures four { result ≡ four_at h.now at }
    ensures small { result < 2 ^ 32 }
{
    u64::from(h[at])
        + u64::from(h[at + 1]) * 0x100
        + u64::from(h[at + 2]) * 0x1_0000
        + u64::from(h[at + 3]) * 0x100_0000
}

// A hash of the eight bytes before `end`.
pub fn tail_hash(h: &[u8], end: usize) -> u64
    requires least { 8 ≤ end }
    requires most { end ≤ length h.now }
    ensures { result ≡ tail_hash h.now end }
{
    let a = four(h, end - 8);
    let b = four(h, end - 4);
    (a + b * 33) * 39084873
}
