// Lists of names, written with `,` between them.
ghost use Rattle.std.specs.Prelude.{◌≡◌};
ghost use Rattle.values.specs.Value.{meaning};
ghost use Rattle.rules.specs.Known.{is_in};
ghost use Rattle.records.specs.Lists.{listed_row};

use values::{bytes, string};

// Whether the text s, by its meaning, is one of the names.
pub fn is_listed(list: &[u8], s: &[u8], quoted: bool) -> bool
    ensures { result ≡ is_in (meaning quoted s.now) (listed_row list.now) }
{
    let mut start: usize = 0;
    // Kept: with `for name in list.split(|b| *b == b',')` the proof didn't close at `returns-then-same_meaning`: nothing ties the closure to `listed_row`.
    loop {
        let end = bytes::find(list, start, b',');
        if string::same_meaning(bytes::part(list, start, end), false, s, quoted) {
            return true;
        }
        if list.len() <= end {
            return false;
        }
        start = end + 1;
    }
}
