// The sheet of a season, through the library.
ghost use Rattle.std.specs.Prelude.{◌≡◌};
ghost use Rattle.entries.specs.Tables.{stored};
ghost use Rattle.header.specs.Parsers.{read_into};
ghost use Rattle.season.specs.Answers.{merge_answer, add_means};
ghost use Rattle.capi.specs.Answers.{imposed_by, form_by};
ghost use Rattle.capi.specs.Seasons.{added_in_c, merged_in_c};

use season::{add, merge};

// 39 totals: place 0 is headers read, 1 accepted, 1 and n refused by n, 28 and k entries of kind k.
#[repr(C)]
#[derive(Clone, Copy)]
pub struct VcfhSheet {
    pub totals: [u64; 39],
}

// The same as a read answer, or 30, and the sheet after it: as it was, if that is 30.
#[repr(C)]
#[derive(Clone, Copy)]
pub struct VcfhAdded {
    pub number: u64,
    pub line: u64,
    pub start: u64,
    pub entries: u64,
    pub sheet: VcfhSheet,
}

// 0 or 30, and the sheet after it: the first one as it was, if that is 30.
#[repr(C)]
#[derive(Clone, Copy)]
pub struct VcfhMerged {
    pub number: u64,
    pub sheet: VcfhSheet,
}

// Reads a header into the table, and adds it to the sheet.
#[unsafe(no_mangle)]
pub extern "C" fn vcfh_season_add(
    header: &[u8],
    imposed: u64,
    major: u32,
    minor: u32,
    form: u64,
    table: &mut [u64],
    sheet: VcfhSheet,
) -> VcfhAdded
    ensures answer { result ≡ added_in_c (add_means sheet.totals (read_into (form_by form) (imposed_by imposed major minor) table.old header.now)) }
    ensures table { table.new ≡ stored (form_by form) table.old 0
        (read_into (form_by form) (imposed_by imposed major minor) table.old header.now).entries }
{
    let version = crate::imposed_by(imposed, major, minor);
    let named = crate::form_of(form);
    let before = sheet.totals;
    let answer = add::add(header, version, named, table, before);
    let outcome = answer.outcome;
    let number = add::number(outcome);
    let totals = answer.sheet;
    VcfhAdded {
        number,
        line: answer.line as u64,
        start: answer.start as u64,
        entries: answer.entries as u64,
        sheet: VcfhSheet { totals },
    }
}

// Adds the totals of one sheet to those of another.
#[unsafe(no_mangle)]
pub extern "C" fn vcfh_season_merge(sheet: VcfhSheet, other: VcfhSheet) -> VcfhMerged
    ensures { result ≡ merged_in_c (merge_answer sheet.totals other.totals) }
{
    let before = sheet.totals;
    let more = other.totals;
    let answer = merge::merge(before, more);
    let outcome = answer.outcome;
    let number = merge::number(outcome);
    let totals = answer.sheet;
    VcfhMerged {
        number,
        sheet: VcfhSheet { totals },
    }
}
