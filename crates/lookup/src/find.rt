// The first entry under a key and an ID, and a value of it.
ghost use Rattle.std.specs.Prelude.{◌≡◌, length};
ghost use Rattle.records.specs.Formats.{version_of};
ghost use Rattle.lookup.specs.Entries.{first_under};
ghost use Rattle.lookup.specs.Fields.{TextInside, text_under};

use crate::{entry, field};
use entries::form::Form;
use entries::table;
use records::file_format::FileFormat;
use values::string::Text;

// In table order; entries that are not well formed are passed over.
pub fn find_entry(h: &[u8], table: &[u64], form: Form, key: &[u8], id: &[u8]) -> Option<usize>
    ensures { result ≡ first_under form h.now table.now key.now id.now }
{
    for n in 0..table::count(table, form) {
        if entry::is_under(h, table, form, n, key, id) {
            return Some(n);
        }
    }
    None
}

// The value of its first field with this key, whose line is read again, under this version.
pub fn find_value(
    h: &[u8],
    table: &[u64],
    form: Form,
    version: FileFormat,
    key: &[u8],
    id: &[u8],
    field: &[u8],
) -> Option<Text>
    ensures found { result ≡ text_under form h.now table.now (version_of version) field.now
        (first_under form h.now table.now key.now id.now) }
    ensures inside { TextInside (length h.now) result }
{
    match find_entry(h, table, form, key, id) {
        Some(n) => field::value(h, table, form, n, version, field),
        None => None,
    }
}
