// Why no contig lines are written.
ghost use Rattle.std.specs.Prelude.{◌≡◌};
ghost use Rattle.sam.specs.Lines.{sam_number};

// InvalidSequence: SN or LN missing or out of range.
#[derive(Clone, Copy)]
pub enum SamRefusal {
    LineTooLong,
    InvalidUtf8,
    InvalidTag,
    InvalidSequence,
    DuplicateSequence,
    OutputTooSmall,
}

impl SamRefusal {
    // The number of documents 01 and 02.
    pub fn number(self) -> u64
        ensures { result ≡ sam_number self }
    {
        match self {
            SamRefusal::LineTooLong => 2,
            SamRefusal::InvalidUtf8 => 3,
            SamRefusal::InvalidTag => 41,
            SamRefusal::InvalidSequence => 42,
            SamRefusal::DuplicateSequence => 43,
            SamRefusal::OutputTooSmall => 28,
        }
    }
}
