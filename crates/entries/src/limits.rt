// What a form of entries sets: how long a header and a line may be, in bytes, a line without its ending; whether an entry tells the
// length of its key and the number of its fields.
#[derive(Clone, Copy)]
pub struct Limits {
    pub header: usize,
    pub line: usize,
    pub counted: bool,
}

impl Limits {
    // A start of the first form has 20 bits, a length 16.
    pub const FIRST: Limits = Limits {
        header: 0xF_FFFF,
        line: 0xFFFF,
        counted: false,
    };

    // Both have 24 in the second.
    pub const SECOND: Limits = Limits {
        header: 0xFF_FFFF,
        line: 0xFF_FFFF,
        counted: true,
    };
}
