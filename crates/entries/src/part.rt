// The parts of the header that an entry tells, as far as they lie in it.
ghost use Rattle.std.specs.Prelude.{◌≡◌};
ghost use Rattle.rules.specs.Shown.{line_in, id_in};
ghost use Rattle.entries.specs.Values.{entry_of};

use crate::entry::Entry;
use values::bytes;

// The line, or the sample name.
pub fn line_part(h: &[u8], e: Entry) -> &[u8]
    ensures { result.now ≡ line_in h.now (entry_of e) }
{
    bytes::piece(h, e.start, e.length)
}

// The ID's text, without quotes.
pub fn id_part(h: &[u8], e: Entry) -> &[u8]
    ensures { result.now ≡ id_in h.now (entry_of e) }
{
    bytes::piece(bytes::piece(h, e.start, h.len()), e.offset, e.id_length)
}
