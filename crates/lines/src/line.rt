// LF ends a line, and one CR just before it goes with it; a last line without LF keeps a final CR.
ghost use Rattle.std.specs.Prelude.{◌≡◌, ◌+◌, length, drop};
ghost use Rattle.values.specs.Bytes.{LF, is, before};
ghost use Rattle.lines.specs.Lines.{last_end, LineIs};

use values::bytes;

// Where the line that was asked for ends, and where the next one stands.
#[derive(Clone, Copy)]
pub struct Line {
    pub end: usize,
    pub next: usize,
}

// Past blocks of eight bytes that have no LF: the first one from there on is the first from `at` on.
// Kept: a walk by blocks; a `for` over `chunks_exact` would count the place beside it all the same.
fn skip_blocks(h: &[u8], at: usize) -> usize
    ensures { result + length (before (is LF) (drop result h.now)) ≡ at + length (before (is LF) (drop at h.now)) }
{
    let mut i = at;
    while 8 <= h.len().saturating_sub(i) && !bytes::has(&h[i..i + 8], b'\n') {
        i += 8;
    }
    i
}

pub fn next_line(h: &[u8], at: usize) -> Line
    ensures { LineIs h.now at result }
{
    let lf = bytes::find(h, skip_blocks(h, at), b'\n');
    if h.len() <= lf {
        return Line { end: lf, next: lf };
    }
    let next = lf + 1;
    if lf != at && h[lf - 1] == b'\r' {
        return Line { end: lf - 1, next };
    }
    Line { end: lf, next }
}

// The place after the last LF from `at` on; where there is none, `at`.
pub fn last_end(h: &[u8], at: usize) -> usize
    ensures { result ≡ last_end h.now at }
{
    if h.len() <= at {
        return at;
    }
    // A line may be long, so whether it is complete is looked at for many bytes at once.
    if !bytes::has(&h[at..], b'\n') {
        return at;
    }
    for last in (at..h.len()).rev() {
        if h[last] == b'\n' {
            return last + 1;
        }
    }
    at
}
