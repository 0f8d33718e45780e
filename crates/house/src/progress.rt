// Lines of the form, one after another: what does not fit into the output is counted and not written, and all is held against what is given.
ghost use Rattle.std.specs.Prelude.{◌≡◌, [], ◌∷◌};
ghost use Rattle.values.specs.Written.{onward, Puts};
ghost use Rattle.records.specs.Formats.{version_of};
ghost use Rattle.rules.specs.Record.{fileformat};
ghost use Rattle.rules.specs.House.{write_record};
ghost use Rattle.house.specs.Writes.{noted, WroteLines, PutsEntry, PutsLines, PutsRun};

use crate::copying;
use forms::{formed, line};
use records::file_format::FileFormat;
use values::sink;
use values::sink::Sink;

// How long a line may be; where the writing stands, the number of lines, and the first line that was too long: its number, 0 if
// none was, and its start. `formed`: the line of each entry stands as the form writes it.
#[derive(Clone, Copy)]
pub struct Progress {
    pub limit: usize,
    pub next: Sink,
    pub lines: usize,
    pub long: usize,
    pub start: usize,
    pub formed: bool,
}

// So many more, as far as a number goes.
pub fn count_on(n: usize, more: usize) -> usize
    ensures { result ≡ onward n more }
{
    n.saturating_add(more)
}

// A line was written whose text ends at `end` and whose ending at `next`.
fn note_line(s: Progress, end: usize, next: Sink) -> Progress
    ensures { result ≡ noted s end next }
{
    let here = s.next;
    let at = here.at;
    let lines = count_on(s.lines, 1);
    if s.long == 0 && at <= end && s.limit < end - at {
        return Progress {
            next,
            lines,
            long: lines,
            start: at,
            ..s
        };
    }
    Progress { next, lines, ..s }
}

// The line of an entry: most stand as the form writes them, and are copied.
pub fn put_entry(
    line: &[u8],
    version: FileFormat,
    out: &mut [u8],
    given: &[u8],
    s: Progress,
) -> Progress
    ensures { PutsEntry (version_of version) line.now given.now out.old s result out.new }
{
    if s.formed || formed::is_formed(line, version) {
        return put_plain(line, out, given, s);
    }
    let at = s.next;
    let put = line::put_line(out, given, at, line, version);
    note_line(s, put.end, put.next)
}

// The version's line, without its ending.
fn put_format(version: FileFormat, out: &mut [u8], given: &[u8], at: Sink) -> Sink
    ensures { Puts given.now out.old at (write_record (fileformat (version_of version))) result out.new }
{
    let named = sink::put_bytes(out, given, at, b"##fileformat=VCFv");
    let major = sink::put_decimal(out, given, named, version.major as u64);
    let point = sink::put_byte(out, given, major, b'.');
    sink::put_decimal(out, given, point, version.minor as u64)
}

// The version's line: a digit is its last byte.
pub fn put_version(version: FileFormat, out: &mut [u8], given: &[u8], s: Progress) -> Progress
    ensures { WroteLines given.now out.old s (write_record (fileformat (version_of version)) ∷ []) result out.new }
{
    let at = s.next;
    let end = put_format(version, out, given, at);
    let next = line::end_line(out, given, end, false);
    note_line(s, end.at, next)
}

// A line as it stands.
pub fn put_plain(text: &[u8], out: &mut [u8], given: &[u8], s: Progress) -> Progress
    ensures { WroteLines given.now out.old s (text.now ∷ []) result out.new }
{
    let at = s.next;
    let end = copying::put_text(out, given, at, text);
    let cr = line::ends_with_cr(text);
    let next = line::end_line(out, given, end, cr);
    note_line(s, end.at, next)
}

// Lines one after another, of which none is too long, without the last one's LF.
fn put_lines(text: &[u8], count: usize, out: &mut [u8], given: &[u8], s: Progress) -> Progress
    ensures { PutsLines text.now count given.now out.old s result out.new }
{
    let at = s.next;
    let end = copying::put_text(out, given, at, text);
    let next = line::end_line(out, given, end, false);
    Progress {
        next,
        lines: count_on(s.lines, count),
        ..s
    }
}

// The lines of a run of entries.
pub fn put_run(
    text: &[u8],
    count: usize,
    version: FileFormat,
    out: &mut [u8],
    given: &[u8],
    s: Progress,
) -> Progress
    ensures { PutsRun (version_of version) text.now count given.now out.old s result out.new }
{
    if count == 1 {
        return put_entry(text, version, out, given, s);
    }
    put_lines(text, count, out, given, s)
}
