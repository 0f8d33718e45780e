// The words of an entry, most significant bit first, two in the first form and three in the second: numbers too large for their bits lose their upper ones.
ghost use Rattle.std.specs.Prelude.{◌≡◌, [], ◌∷◌, ◌^◌, ◌≤◌, ◌<◌};
ghost use Rattle.entries.specs.Values.{entry_of};
ghost use Rattle.entries.specs.Words.{bit, word_one, word_two, word_three, unpacked, is_clear, strays, excess};
ghost use Rattle.entries.specs.declared.form.Form.TheVariants.{Second};

use crate::entry::Entry;
use crate::form::Form;

// Kind 4, start 20, length 16, zero 24; in the second form start 24, length 24, zero 12.
pub fn word_one(form: Form, e: Entry) -> u64
    ensures { result ≡ word_one form (entry_of e) }
{
    let kind = (e.kind as u64) % 0x10 * 0x1000_0000_0000_0000;
    let start = e.start as u64;
    let length = e.length as u64;
    match form {
        Form::First => kind + start % 0x10_0000 * 0x100_0000_0000 + length % 0x1_0000 * 0x100_0000,
        Form::Second => kind + start % 0x100_0000 * 0x10_0000_0000 + length % 0x100_0000 * 0x1000,
    }
}

fn bit_of(is: bool) -> u64
    ensures bit { result ≡ bit is }
    ensures small { result ≤ 1 }
{
    u64::from(is)
}

// ID offset in the line 16, ID length 16, quoted 1, ID tag 2, zero 29; in the second form offset 24, length 24, 1, 2, zero 13.
pub fn word_two(form: Form, e: Entry) -> u64
    ensures { result ≡ word_two form (entry_of e) }
{
    let offset = e.offset as u64;
    let length = e.id_length as u64;
    let quoted = bit_of(e.quoted);
    let tag = (e.tag as u64) % 4;
    match form {
        Form::First => {
            offset % 0x1_0000 * 0x1_0000_0000_0000
                + length % 0x1_0000 * 0x1_0000_0000
                + quoted * 0x8000_0000
                + tag * 0x2000_0000
        }
        Form::Second => {
            offset % 0x100_0000 * 0x100_0000_0000
                + length % 0x100_0000 * 0x1_0000
                + quoted * 0x8000
                + tag * 0x2000
        }
    }
}

// Key length 24, field count 24, zero 16.
pub fn word_three(e: Entry) -> u64
    ensures { result ≡ word_three Second (entry_of e) }
{
    let length = e.key_length as u64;
    let fields = e.field_count as u64;
    length % 0x100_0000 * 0x100_0000_0000 + fields % 0x100_0000 * 0x1_0000
}

pub fn unpack(form: Form, w: u64, x: u64, y: u64) -> Entry
    ensures { entry_of result ≡ unpacked form (w ∷ x ∷ y ∷ []) }
{
    let kind = (w / 0x1000_0000_0000_0000 % 0x10) as u8;
    match form {
        Form::First => Entry {
            kind,
            start: (w / 0x100_0000_0000 % 0x10_0000) as usize,
            length: (w / 0x100_0000 % 0x1_0000) as usize,
            offset: (x / 0x1_0000_0000_0000 % 0x1_0000) as usize,
            id_length: (x / 0x1_0000_0000 % 0x1_0000) as usize,
            quoted: x / 0x8000_0000 % 2 == 1,
            tag: (x / 0x2000_0000 % 4) as u8,
            key_length: 0,
            field_count: 0,
        },
        Form::Second => Entry {
            kind,
            start: (w / 0x10_0000_0000 % 0x100_0000) as usize,
            length: (w / 0x1000 % 0x100_0000) as usize,
            offset: (x / 0x100_0000_0000 % 0x100_0000) as usize,
            id_length: (x / 0x1_0000 % 0x100_0000) as usize,
            quoted: x / 0x8000 % 2 == 1,
            tag: (x / 0x2000 % 4) as u8,
            key_length: (y / 0x100_0000_0000 % 0x100_0000) as usize,
            field_count: (y / 0x1_0000 % 0x100_0000) as usize,
        },
    }
}

// Whether the bits that no number has are 0.
pub fn is_clear(form: Form, w: u64, x: u64, y: u64) -> bool
    ensures { result ≡ is_clear form (w ∷ x ∷ y ∷ []) }
{
    match form {
        Form::First => w % 0x100_0000 == 0 && x % 0x2000_0000 == 0,
        Form::Second => w % 0x1000 == 0 && x % 0x2000 == 0 && y % 0x1_0000 == 0,
    }
}

// The bits that are 0 in each entry of the first form without a tag.
pub fn strays(w: u64, x: u64) -> u64
    ensures { result ≡ strays w x }
{
    w % 0x100_0000 | x % 0x8000_0000
}

// Below 2^63 where an entry of the first form has a kind with an ID, its line ends early enough, and its ID lies in the line: sums in
// place of tests, so that the compiler takes several entries at once. `room`: how far below 2^63 the header's length is.
pub fn excess(room: u64, w: u64, x: u64) -> u64
    requires { room < 2 ^ 63 }
    ensures { result ≡ excess room w x }
{
    let start = w / 0x100_0000_0000 % 0x10_0000;
    let length = w / 0x100_0000 % 0x1_0000;
    let offset = x / 0x1_0000_0000_0000 % 0x1_0000;
    let id_length = x / 0x1_0000_0000 % 0x1_0000;
    let line = start + length + room;
    let id = offset + id_length + 0x7FFF_FFFF_FFFF_FFFF - length;
    let kind = 0x9FFF_FFFF_FFFF_FFFF - w % 0x8000_0000_0000_0000;
    w | line | id | kind
}
