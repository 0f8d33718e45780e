// What the crate `values` makes of bytes: UTF-8, a 64-bit number, a version's part, a field, a field of a META.
use crate::text;
use values::cursor::Cursor;
use values::sink::Sink;
use values::{bytes, integer, output, string, utf8};

fn put_utf8(out: &mut [u8], s: &[u8]) -> usize {
    if utf8::utf8(s) {
        return output::put_bytes(out, 0, b"utf8");
    }
    output::put_bytes(out, 0, b"refused")
}

fn put_integer(out: &mut [u8], read: Option<(u64, bool)>) -> usize {
    match read {
        Some((n, plain)) => {
            let at = text::put_number(out, 0, b"value=", n);
            if plain {
                return at;
            }
            output::put_bytes(out, at, b" odd")
        }
        None => output::put_bytes(out, 0, b"refused"),
    }
}

fn put_quoted(out: &mut [u8], at: usize, quoted: bool) -> usize {
    if quoted {
        return output::put_bytes(out, at, b" quoted");
    }
    output::put_bytes(out, at, b" bare")
}

fn put_meant(out: &mut [u8], at: usize, text: &[u8], quoted: bool, quote: bool) -> usize {
    let next = string::put_value(out, b"", Sink { at, differs: 0 }, text, quoted, quote);
    next.at
}

// What the value means, then how it is written in quotes.
fn put_written(out: &mut [u8], at: usize, text: &[u8], quoted: bool) -> usize {
    let means = output::put_bytes(out, at, b" means ");
    let meant = put_meant(out, means, text, quoted, false);
    let written = output::put_bytes(out, meant, b" written ");
    put_meant(out, written, text, quoted, true)
}

// The field at the first byte: its places and its value.
fn put_field(out: &mut [u8], s: &[u8], brackets: bool) -> usize {
    let c = Cursor { at: 0 };
    let Some((equals, text, next)) = c.split_field(s, brackets) else {
        return output::put_bytes(out, 0, b"refused");
    };
    let start = text.start;
    let end = text.end;
    let quoted = text.quoted;
    let keyed = text::put_number(out, 0, b"equals=", equals as u64);
    let started = text::put_number(out, keyed, b" start=", start as u64);
    let ended = text::put_number(out, started, b" end=", end as u64);
    let placed = text::put_number(out, ended, b" next=", next.at as u64);
    let at = put_quoted(out, placed, quoted);
    put_written(out, at, bytes::part(s, start, end), quoted)
}

pub fn put(out: &mut [u8], s: &[u8], what: &[u8]) -> usize {
    match what {
        b"utf8" => put_utf8(out, s),
        b"u64" => put_integer(out, integer::parse_u64(s)),
        b"u32" => put_integer(out, integer::parse_u32(s)),
        b"field" => put_field(out, s, false),
        b"meta" => put_field(out, s, true),
        _ => output::put_bytes(out, 0, b"nobody can be asked that"),
    }
}
