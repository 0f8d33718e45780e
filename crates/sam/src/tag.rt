// The tags of an `@SQ` line, tab-parted, which stand from its fifth byte on.
ghost use Rattle.std.specs.Prelude.{◌≡◌, true};
ghost use Rattle.sam.specs.Tags.{is_tag, tagged, are_tags};
ghost use Rattle.sam.specs.Lines.{or_nothing, tags_at, name_number};

use values::{bits, bytes};

pub const TAGS_START: usize = 4;

// A letter, a letter or digit, `:` and one byte or more.
fn is_tag(t: &[u8]) -> bool
    ensures { result ≡ is_tag t.now }
{
    match t {
        [a, b, c, _, ..] => a.is_ascii_alphabetic() && b.is_ascii_alphanumeric() && *c == b':',
        _ => false,
    }
}

// A number of its own for each name that a tag can have, below 58 * 75.
fn name_number(tag: &[u8]) -> usize
    requires { is_tag tag.now ≡ true }
    ensures { result ≡ name_number tag.now }
{
    (tag[0] - b'A') as usize * 75 + (tag[1] - b'0') as usize
}

// The value of the first tag of this name from `start` on, no bytes if there is none.
pub fn find_tag<'a>(line: &'a [u8], start: usize, name: &[u8]) -> &'a [u8]
    ensures { result.now ≡ or_nothing (tagged name.now (tags_at line.now start)) }
{
    if line.len() < start {
        return &line[..0];
    }
    let mut at = start;
    // Kept: a walk by the library's `split` at a tab is some 5 % slower than by `find`, which looks at two bytes in a turn.
    loop {
        let end = bytes::find(line, at, b'\t');
        let tag = bytes::part(line, at, end);
        if bytes::same(bytes::piece(tag, 0, 2), name) {
            return bytes::part(tag, 3, tag.len());
        }
        if line.len() <= end {
            return &line[..0];
        }
        at = end + 1;
    }
}

// Whether each is a tag, and none has the name of one before it.
pub fn are_tags(line: &[u8]) -> bool
    ensures { result ≡ are_tags (tags_at line.now 4) }
{
    if line.len() < TAGS_START {
        return true;
    }
    let mut met = [0u64; 68];
    let mut at: usize = TAGS_START;
    // Kept: as in `find_tag`.
    loop {
        let end = bytes::find(line, at, b'\t');
        let tag = bytes::part(line, at, end);
        if !is_tag(tag) {
            return false;
        }
        let name = name_number(tag);
        if bits::is_set(&met, name) {
            return false;
        }
        if line.len() <= end {
            return true;
        }
        bits::set(&mut met, name);
        at = end + 1;
    }
}
