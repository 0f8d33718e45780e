// How a case is written: parts, escapes, and the texts of answers; and how far an output was written.
ghost use Rattle.std.specs.Prelude.{◌<◌, ◌≤◌, length};

use values::{bytes, integer, output};

// What stands in an escaped text: a byte, or the last 512 bytes over and over, so many of them.
#[derive(Clone, Copy)]
enum Meant {
    Byte(u8),
    Again(usize),
}

// The same, and where the text goes on.
#[derive(Clone, Copy)]
struct Piece {
    meant: Meant,
    next: usize,
}

// The n-th of the parts that x parts, from 0, no bytes if there are fewer.
pub fn nth(s: &[u8], x: u8, n: usize) -> &[u8] {
    s.split(|b| *b == x).nth(n).unwrap_or(&s[..0])
}

// Where the last item ends that is not `blank`.
pub fn written_end<T: PartialEq>(s: &[T], blank: &T) -> usize
    ensures { result ≤ length s.now }
{
    match s.iter().rposition(|x| x != blank) {
        Some(last) => last + 1,
        None => 0,
    }
}

fn byte_at(s: &[u8], i: usize) -> u8 {
    s.get(i).copied().unwrap_or(0)
}

fn hex_digit(b: u8) -> u8
    ensures { result < 16 }
{
    match b {
        b'0'..=b'9' => b - 48,
        b'a'..=b'f' => b - 87,
        _ => 0,
    }
}

// The byte that a letter after a backslash means.
fn escaped(b: u8) -> u8 {
    match b {
        b'n' => b'\n',
        b'r' => b'\r',
        b't' => b'\t',
        _ => b,
    }
}

fn count_of(s: &[u8]) -> usize {
    match integer::parse_u64(s) {
        Some((n, _)) => n as usize,
        None => 0,
    }
}

// `\+`, a number and `;`.
fn repeat_piece(s: &[u8], i: usize) -> Piece
    requires { i < length s.now }
    ensures { i < result.next }
{
    let end = bytes::find(s, i, b';');
    if s.len() <= end {
        return Piece {
            meant: Meant::Byte(0),
            next: i + 1,
        };
    }
    let meant = match count_of(bytes::part(s, i, end)) {
        0 => Meant::Byte(0),
        again => Meant::Again(again),
    };
    Piece {
        meant,
        next: end + 1,
    }
}

fn piece_at(s: &[u8], i: usize) -> Piece
    requires { i < length s.now }
    ensures { i < result.next }
{
    let b = s[i];
    if b != b'\\' {
        return Piece {
            meant: Meant::Byte(b),
            next: i + 1,
        };
    }
    match byte_at(s, i + 1) {
        b'x' => Piece {
            meant: Meant::Byte(16 * hex_digit(byte_at(s, i + 2)) + hex_digit(byte_at(s, i + 3))),
            next: i + 4,
        },
        b'+' if i + 2 < s.len() => repeat_piece(s, i + 2),
        kind => Piece {
            meant: Meant::Byte(escaped(kind)),
            next: i + 2,
        },
    }
}

// Puts `again` bytes, each the one 512 before it, as far as there is room.
fn put_again(out: &mut [u8], at: usize, again: usize) -> usize {
    if at < 512 || out.len() <= at {
        return at;
    }
    let end = at + again.min(out.len() - at);
    for i in at..end {
        out[i] = out[i - 512];
    }
    end
}

// The text without its escapes; answers its length.
// Kept: a piece takes one byte or several, so that a `for` over the bytes would be no plainer than a cursor.
pub fn unescape(s: &[u8], out: &mut [u8]) -> usize {
    let mut at = 0;
    let mut i = 0;
    while i < s.len() {
        let piece = piece_at(s, i);
        i = piece.next;
        at = match piece.meant {
            Meant::Byte(b) => output::put_byte(out, at, b),
            Meant::Again(again) => put_again(out, at, again),
        };
    }
    at
}

// Each number after a space.
pub fn put_numbers<T: Copy + Into<u64>>(
    out: &mut [u8],
    at: usize,
    label: &[u8],
    numbers: &[T],
) -> usize {
    let mut next = output::put_bytes(out, at, label);
    for n in numbers {
        next = put_number(out, next, b" ", (*n).into());
    }
    next
}

pub fn put_number(out: &mut [u8], at: usize, label: &[u8], n: u64) -> usize {
    let next = output::put_bytes(out, at, label);
    output::put_decimal(out, next, n)
}

pub fn put_hex(out: &mut [u8], at: usize, n: u64) -> usize {
    let mut digits = [0u8; 16];
    let k = io::hex(n, 1, &mut digits);
    output::put_bytes(out, at, &digits[..k])
}
