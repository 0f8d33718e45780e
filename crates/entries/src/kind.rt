// The kinds of entries.
ghost use Rattle.std.specs.Prelude.{◌≡◌};
ghost use Rattle.rules.specs.Shown.{has_id};

// Kept: what may not change: an entry is what its words say (`get`, for any words), and a kind may be any of 16 numbers there.
pub const FILE_FORMAT: u8 = 1;

pub const INFO: u8 = 2;

pub const FILTER: u8 = 3;

pub const FORMAT: u8 = 4;

pub const ALTERNATIVE_ALLELE: u8 = 5;

pub const CONTIG: u8 = 6;

pub const OTHER_MAP: u8 = 7;

pub const OTHER_TEXT: u8 = 8;

pub const COLUMNS: u8 = 9;

pub const SAMPLE: u8 = 10;

// The kinds of maps have an ID.
pub fn has_id(kind: u8) -> bool
    ensures { result ≡ has_id kind }
{
    INFO <= kind && kind <= OTHER_MAP
}
