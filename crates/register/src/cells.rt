// The `##cell` maps among a header's entries.
ghost use Rattle.std.specs.Prelude.{◌≡◌};
ghost use Rattle.entries.specs.Values.{entry_of};
ghost use Rattle.register.specs.Wells.{is_cell, constant_at, constant_read, table_cells, Lines, StartTold, ConstantTold, MissingTold, ConstantsTold};

use crate::well;
use entries::entry::Entry;
use entries::form::Form;
use entries::{kind, part, table};
use records::field;
use values::bytes;

// Where the fields stand in the line: after `##cell=<`.
const FIELDS: usize = 8;

// The line of the lowest well whose constant is none, 0 if all have one, and the constants in well order, all 0 if one has none.
#[derive(Clone, Copy)]
pub struct Plate {
    pub fault: usize,
    pub constants: [u64; 40],
}

fn is_cell(h: &[u8], e: Entry) -> bool
    ensures { result ≡ is_cell h.now (entry_of e) }
{
    e.kind == kind::OTHER_MAP && bytes::starts_with(part::line_part(h, e), b"##cell=")
}

// For each well the line of its first cell, in place 0 that of the first cell whose ID is no well's; 0 where there is none. From
// the last entry to the first, so that the first of a well stays.
pub fn cell_lines(h: &[u8], kept: &[u64], form: Form) -> [usize; 41]
    ensures { Lines (table_cells form h.now kept.now) result }
{
    let mut lines = [0usize; 41];
    for k in (0..table::count(kept, form)).rev() {
        let e = table::get(kept, form, k);
        if is_cell(h, e) {
            let well = well::well_of(part::id_part(h, e));
            lines[well] = k + 1;
        }
    }
    lines
}

// The start of a line, whose entry's number is one less than its own.
pub fn start_of(kept: &[u64], form: Form, line: usize) -> usize
    ensures { StartTold form kept.now line result }
{
    if line == 0 {
        return 0;
    }
    table::get(kept, form, line - 1).start
}

// The constant of the map that an entry is.
fn constant_of(h: &[u8], e: Entry) -> Option<u64>
    ensures { result ≡ constant_read (constant_at h.now (entry_of e)) }
{
    let line = part::line_part(h, e);
    let Some(text) = field::find_field(line, FIELDS, false, b"K") else {
        return None;
    };
    well::hundredths(bytes::part(line, text.start, text.end))
}

fn constant_on(h: &[u8], kept: &[u64], form: Form, line: usize) -> Option<u64>
    ensures { ConstantTold form h.now kept.now line result }
{
    if line == 0 {
        return None;
    }
    constant_of(h, table::get(kept, form, line - 1))
}

// Whether a well has no line.
pub fn is_missing(lines: &[usize; 41]) -> bool
    ensures { MissingTold lines.now result }
{
    for well in 1..=40 {
        if lines[well] == 0 {
            return true;
        }
    }
    false
}

pub fn constants(h: &[u8], kept: &[u64], form: Form, lines: &[usize; 41]) -> Plate
    ensures { ConstantsTold form h.now kept.now lines.now result }
{
    let mut found = [0u64; 40];
    for well in 0..40 {
        let line = lines[well + 1];
        let Some(n) = constant_on(h, kept, form, line) else {
            return Plate {
                fault: line,
                constants: [0; 40],
            };
        };
        found[well] = n;
    }
    Plate {
        fault: 0,
        constants: found,
    }
}
