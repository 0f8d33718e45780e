// Where the totals stand on a sheet.

pub const READ: usize = 0;

pub const ACCEPTED: usize = 1;

// The total of those refused by n stands n places further.
pub const REFUSED: usize = 1;

// The total of the entries of kind k stands k places further.
pub const ENTRIES: usize = 28;
