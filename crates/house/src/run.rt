// Runs of entries of one key: their lines follow one another in the header as they do in the form, and so are put at once.
ghost use Rattle.std.specs.Prelude.{◌≡◌, ◌<◌};
ghost use Rattle.entries.specs.Values.{entry_of};
ghost use Rattle.entries.specs.Tables.{room};
ghost use Rattle.house.specs.Runs.{line_end, IsShort, IsNext, FindsRun};

use crate::keys;
use entries::entry::Entry;
use entries::form::Form;
use entries::{part, table};
use forms::line;

// The number after that of its last entry, and where the line of this one ends.
#[derive(Clone, Copy)]
pub struct Run {
    pub end: usize,
    pub stop: usize,
}

// Where an entry's line ends.
fn line_end(h: &[u8], e: Entry) -> usize
    ensures { result ≡ line_end h.now (entry_of e) }
{
    if h.len() <= e.start {
        return e.start;
    }
    if h.len() - e.start < e.length {
        return h.len();
    }
    e.start + e.length
}

// Whether a line is not too long, and ends in LF alone.
fn is_short(s: &[u8], limit: usize) -> bool
    ensures { IsShort limit s.now result }
{
    s.len() <= limit && !line::ends_with_cr(s)
}

// Whether an entry is under the key, and its line, which is such a one, stands past the LF that is at `stop`.
fn is_next(h: &[u8], e: Entry, prefix: &[u8], limit: usize, stop: usize) -> bool
    ensures { IsNext h.now prefix.now limit stop (entry_of e) result }
{
    stop < h.len()
        && e.start == stop + 1
        && h[stop] == b'\n'
        && keys::is_under(h, e, prefix)
        && is_short(part::line_part(h, e), limit)
}

// From entry number k on, which is under the key; of this one alone if not all lines stand in form.
pub fn find_run(
    h: &[u8],
    kept: &[u64],
    form: Form,
    prefix: &[u8],
    k: usize,
    limit: usize,
    formed: bool,
) -> Run
    requires { k < room form kept.now }
    ensures { FindsRun form formed h.now kept.now prefix.now limit k result }
{
    let count = table::count(kept, form);
    let first = table::get(kept, form, k);
    let mut stop = line_end(h, first);
    if !formed || !is_short(part::line_part(h, first), limit) {
        return Run { end: k + 1, stop };
    }
    for end in k + 1..count {
        let e = table::get(kept, form, end);
        if !is_next(h, e, prefix, limit, stop) {
            return Run { end, stop };
        }
        stop = line_end(h, e);
    }
    Run { end: count, stop }
}
