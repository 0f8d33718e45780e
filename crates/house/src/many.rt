// The other keys of a header of very many entries: all lines of a key are written where it first appears, and noted as written, so that its
// later entries are passed over.
ghost use Rattle.std.specs.Prelude.{◌≡◌, ◌^◌, ◌<◌};
ghost use Rattle.records.specs.Formats.{version_of};
ghost use Rattle.entries.specs.Notes.{bare};
ghost use Rattle.entries.specs.Tables.{room, entries_in};
ghost use Rattle.house.specs.Keys.{PutsOthers};
ghost use Rattle.house.specs.Many.{PutsAll, PutsNew, PutsEach};

use crate::progress::Progress;
use crate::{chains, keys, progress};
use entries::form::Form;
use entries::{notes, part, table};
use records::file_format::FileFormat;

// The lines under a prefix, from number `first` on.
fn put_all(
    h: &[u8],
    kept: &mut [u64],
    form: Form,
    prefix: &[u8],
    first: usize,
    version: FileFormat,
    out: &mut [u8],
    given: &[u8],
    s: Progress,
) -> Progress
    ensures { PutsAll form (version_of version) h.now kept.old prefix.now first given.now out.old s result out.new kept.new }
{
    let end = table::count(kept, form);
    let mut progress = s;
    let mut k = first;
    // Kept: a `for` is no plainer, since the notes tell the next number.
    while k < end {
        let at = k;
        k = chains::next_of(kept, form, at, end);
        let e = table::get(kept, form, at);
        if keys::is_under(h, e, prefix) {
            let line = part::line_part(h, e);
            progress = progress::put_entry(line, version, out, given, progress);
            chains::mark_written(kept, form, at);
        }
    }
    progress
}

// The lines of the key of entry number k, if that is not typed and they are not written.
fn put_if_new(
    h: &[u8],
    kept: &mut [u64],
    form: Form,
    k: usize,
    version: FileFormat,
    out: &mut [u8],
    given: &[u8],
    s: Progress,
) -> Progress
    ensures { PutsNew form (version_of version) h.now kept.old k given.now out.old s result out.new kept.new }
{
    if chains::is_written(kept, form, k) {
        return s;
    }
    let e = table::get(kept, form, k);
    if !keys::is_other(e) {
        return s;
    }
    let prefix = keys::prefix_part(h, e);
    put_all(h, kept, form, prefix, k, version, out, given, s)
}

// The keys one after the other, by first appearance, where the entries are linked.
fn put_each(
    h: &[u8],
    kept: &mut [u64],
    form: Form,
    version: FileFormat,
    out: &mut [u8],
    given: &[u8],
    s: Progress,
) -> Progress
    ensures { PutsEach form (version_of version) h.now kept.old given.now out.old s result out.new kept.new }
{
    let mut progress = s;
    for k in 0..table::count(kept, form) {
        progress = put_if_new(h, kept, form, k, version, out, given, progress);
    }
    progress
}

// The other keys, by first appearance; the notes are taken away.
pub fn put_linked(
    h: &[u8],
    kept: &mut [u64],
    form: Form,
    version: FileFormat,
    out: &mut [u8],
    given: &[u8],
    s: Progress,
) -> Progress
    requires bare { bare kept.old ≡ kept.old }
    requires few { room form kept.old < 2 ^ 23 }
    ensures lines { PutsOthers (version_of version) h.now (entries_in form kept.old) given.now out.old s result out.new }
    ensures table { kept.new ≡ kept.old }
{
    chains::link_all(h, kept, form);
    let progress = put_each(h, kept, form, version, out, given, s);
    notes::clear(kept);
    progress
}
