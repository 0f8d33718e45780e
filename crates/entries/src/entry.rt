// An entry: a line of the header, or a sample name.
ghost use Rattle.std.specs.Prelude.{◌≡◌};
ghost use Rattle.rules.specs.Entry.{plain_entry, with_counts};
ghost use Rattle.entries.specs.Values.{entry_of};

// Its kind, where its line stands, and where in the line the ID's text stands, without quotes; which name stands for the ID; where
// these are counted, the length of its key and the number of its fields.
#[derive(Clone, Copy)]
pub struct Entry {
    pub kind: u8,
    pub start: usize,
    pub length: usize,
    pub offset: usize,
    pub id_length: usize,
    pub quoted: bool,
    pub tag: u8,
    pub key_length: usize,
    pub field_count: usize,
}

impl Entry {
    // An entry that says nothing of an ID, a key and fields.
    pub fn plain(kind: u8, start: usize, length: usize) -> Entry
        ensures { entry_of result ≡ plain_entry kind start length }
    {
        Entry {
            kind,
            start,
            length,
            offset: 0,
            id_length: 0,
            quoted: false,
            tag: 0,
            key_length: 0,
            field_count: 0,
        }
    }

    // The same with the length of its key.
    pub fn keyed(kind: u8, start: usize, length: usize, key_length: usize) -> Entry
        ensures { entry_of result ≡ with_counts (record { key_length = key_length; field_count = 0 }) (plain_entry kind start length) }
    {
        Entry {
            key_length,
            ..Entry::plain(kind, start, length)
        }
    }
}
