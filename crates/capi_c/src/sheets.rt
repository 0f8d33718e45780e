// The sheet of a season.
ghost use Rattle.std.specs.Prelude.{◌≡◌};
ghost use Rattle.entries.specs.Tables.{stored};
ghost use Rattle.header.specs.Parsers.{read_into};
ghost use Rattle.season.specs.Answers.{merge_answer, add_means};
ghost use Rattle.capi.specs.Answers.{imposed_by, form_by};
ghost use Rattle.capi.specs.Seasons.{added_in_c, merged_in_c};

use capi::sheets;
use capi::sheets::{VcfhAdded, VcfhMerged, VcfhSheet};

// Reads a header into the table, and adds it to the sheet.
#[unsafe(no_mangle)]
pub extern "C" fn vcfh_season_add(
    header: &[u8],
    imposed: u64,
    major: u32,
    minor: u32,
    form: u64,
    table: &mut [u64],
    sheet: VcfhSheet,
) -> VcfhAdded
    ensures answer { result ≡ added_in_c (add_means sheet.totals (read_into (form_by form) (imposed_by imposed major minor) table.old header.now)) }
    ensures table { table.new ≡ stored (form_by form) table.old 0
        (read_into (form_by form) (imposed_by imposed major minor) table.old header.now).entries }
{
    sheets::vcfh_season_add(header, imposed, major, minor, form, table, sheet)
}

// Adds the totals of one sheet to those of another.
#[unsafe(no_mangle)]
pub extern "C" fn vcfh_season_merge(sheet: VcfhSheet, other: VcfhSheet) -> VcfhMerged
    ensures { result ≡ merged_in_c (merge_answer sheet.totals other.totals) }
{
    sheets::vcfh_season_merge(sheet, other)
}
