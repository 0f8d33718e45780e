// The places of an index, and the order in which they are tried.
ghost use Rattle.std.specs.Prelude.{◌≡◌, ◌+◌, ◌<◌};
ghost use Rattle.values.specs.Value.{meaning};
ghost use Rattle.index.specs.Index.{is_indexed, first_place, next_place};

use values::hash;

// An index covers kinds 2 to 6.
pub fn is_indexed(kind: u64) -> bool
    ensures { result ≡ is_indexed kind }
{
    2 <= kind && kind <= 6
}

// Of so many places, the one that is tried first.
pub fn first_place(places: usize, kind: u8, id: &[u8], quoted: bool) -> usize
    requires { 0 < places }
    ensures place { result ≡ first_place places kind (meaning quoted id.now) }
    ensures inside { result < places }
{
    (hash::hash_of(kind, id, quoted) as usize) % places
}

// The place after this one; after the last comes the first.
pub fn next_place(places: usize, at: usize) -> usize
    requires { at < places }
    ensures place { result ≡ next_place places at }
    ensures inside { result < places }
{
    if at + 1 == places { 0 } else { at + 1 }
}
