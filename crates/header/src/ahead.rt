// The lines still to be read, looked at for their names: of the entries before them only those need be marked that one of these may clash with.
ghost use Rattle.std.specs.Prelude.{◌≡◌, ◌≤◌, length, drop};
ghost use Rattle.values.specs.Bytes.{part};
ghost use Rattle.rules.specs.Lines.{pieces};
ghost use Rattle.records.specs.Formats.{version_of};
ghost use Rattle.entries.specs.Values.{limits_by};
ghost use Rattle.entries.specs.Tables.{entries_in};
ghost use Rattle.header.specs.Verdicts.{stage_of};
ghost use Rattle.header.specs.Ahead.{note_line, note_lines, AheadMarked};
ghost use Rattle.header.specs.Steps.{body};

use crate::phase::Phase;
use crate::verdict;
use crate::verdict::Place;
use entries::form::Form;
use entries::table;
use ids::{ahead, scan};
use lines::line;
use records::file_format::FileFormat;
use records::record;
use values::bytes;

fn note_line(h: &[u8], at: Place, form: Form, version: FileFormat, notes: &mut [u64])
    ensures { notes.new ≡ note_line (limits_by form) (version_of version) h.now at.start
        (part h.now at.start at.end) notes.old }
{
    let l = bytes::part(h, at.start, at.end);
    let read = record::parse_record(l, version);
    match verdict::meet_read(l, form, at.start, read) {
        Ok((new, _)) => ahead::note_names(h, new, notes),
        Err(_) => {}
    }
}

// The names of all lines from `from` on.
fn note_lines(h: &[u8], from: usize, form: Form, version: FileFormat, notes: &mut [u64])
    requires { from ≤ length h.now }
    ensures { notes.new ≡ note_lines (limits_by form) (version_of version) h.now from
        (pieces (drop from h.now)) notes.old }
{
    let mut start = from;
    // Kept: no plainer: each line tells where the next one begins.
    while start < h.len() {
        let found = line::next_line(h, start);
        let at = Place {
            start,
            end: found.end,
        };
        note_line(h, at, form, version, notes);
        start = found.next;
    }
}

fn mark_by(
    h: &[u8],
    from: usize,
    version: FileFormat,
    kept: &[u64],
    form: Form,
    notes: &mut [u64],
    marks: &mut [u64],
)
    requires { from ≤ length h.now }
    ensures { AheadMarked (limits_by form) (body (version_of version)) h.now from marks.new (entries_in form kept.now) }
{
    note_lines(h, from, form, version, notes);
    scan::mark_noted(h, kept, form, notes, marks);
}

// With notes of its own, which are on the stack of no caller.
#[inline(never)]
fn mark_noting<const N: usize>(
    h: &[u8],
    from: usize,
    version: FileFormat,
    kept: &[u64],
    form: Form,
    marks: &mut [u64],
)
    requires inside { from ≤ length h.now }
    requires few { N ≤ 32768 }
    ensures { AheadMarked (limits_by form) (body (version_of version)) h.now from marks.new (entries_in form kept.now) }
{
    let mut notes = [0u64; N];
    mark_by(h, from, version, kept, form, &mut notes, marks);
}

// A short part is read in less time than many notes are cleared.
fn mark_named(
    h: &[u8],
    from: usize,
    version: FileFormat,
    kept: &[u64],
    form: Form,
    marks: &mut [u64],
)
    requires { from ≤ length h.now }
    ensures { AheadMarked (limits_by form) (body (version_of version)) h.now from marks.new (entries_in form kept.now) }
{
    if h.len() - from < 16384 {
        mark_noting::<1024>(h, from, version, kept, form, marks);
    } else {
        mark_noting::<32768>(h, from, version, kept, form, marks);
    }
}

// Marks what lines from `from` on may clash with. Few entries are all marked in less time than the lines are looked at.
pub fn mark_ahead(h: &[u8], from: usize, phase: Phase, kept: &[u64], form: Form, marks: &mut [u64])
    requires { from ≤ length h.now }
    ensures { AheadMarked (limits_by form) (stage_of phase) h.now from marks.new (entries_in form kept.now) }
{
    let none = [0u64; 0];
    if table::count(kept, form) <= 256 + (h.len() - from) / 64 {
        scan::mark_noted(h, kept, form, &none, marks);
        return;
    }
    match phase {
        Phase::Ready(version) => mark_named(h, from, version, kept, form, marks),
        Phase::Empty | Phase::Done(_, _) => scan::mark_noted(h, kept, form, &none, marks),
    }
}
