// The size of the records' lines in the form: their order is no matter, so that they are taken as they stand.
ghost use Rattle.std.specs.Prelude.{◌≡◌};
ghost use Rattle.records.specs.Formats.{version_of};
ghost use Rattle.entries.specs.Tables.{entries_in};
ghost use Rattle.house.specs.Sizes.{with_line, AddsRecord, AddsPut, SumsLines};

use crate::{keys, progress};
use entries::form::Form;
use entries::{part, table};
use forms::{formed, line};
use records::file_format::FileFormat;
use values::sink::Sink;

// Whether all lines stand as the form writes them, and their size there; the largest number if one of them is too long.
#[derive(Clone, Copy)]
pub struct Sum {
    pub formed: bool,
    pub size: usize,
}

// A line more as it stands, with its ending.
fn add_line(size: usize, text: &[u8], limit: usize) -> usize
    ensures { result ≡ with_line limit size text.now }
{
    if limit < text.len() {
        return 0xFFFF_FFFF_FFFF_FFFF;
    }
    let sized = progress::count_on(size, text.len());
    if line::ends_with_cr(text) {
        return progress::count_on(sized, 2);
    }
    progress::count_on(sized, 1)
}

// The form's line of a text more, which is put nowhere.
fn add_put(size: usize, text: &[u8], version: FileFormat, limit: usize) -> usize
    ensures { AddsPut limit (version_of version) size text.now result }
{
    let mut nothing = [0u8; 0];
    let begun = Sink { at: 0, differs: 0 };
    let put = line::put_line(&mut nothing, b"", begun, text, version);
    if limit < put.end {
        return 0xFFFF_FFFF_FFFF_FFFF;
    }
    let next = put.next;
    progress::count_on(size, next.at)
}

// A record's line more.
fn add_record(sum: Sum, text: &[u8], version: FileFormat, limit: usize) -> Sum
    ensures { AddsRecord limit (version_of version) sum text.now result }
{
    if formed::is_formed(text, version) {
        return Sum {
            formed: sum.formed,
            size: add_line(sum.size, text, limit),
        };
    }
    Sum {
        formed: false,
        size: add_put(sum.size, text, version, limit),
    }
}

pub fn sum_lines(h: &[u8], kept: &[u64], form: Form, version: FileFormat, limit: usize) -> Sum
    ensures { SumsLines limit (version_of version) h.now (entries_in form kept.now) result }
{
    let mut sum = Sum {
        formed: true,
        size: 0,
    };
    for k in 0..table::count(kept, form) {
        let e = table::get(kept, form, k);
        if keys::is_record(e) {
            sum = add_record(sum, part::line_part(h, e), version, limit);
        }
    }
    sum
}
