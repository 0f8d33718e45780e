// The phases of the line machine.
ghost use Rattle.std.specs.Prelude.{◌≡◌};
ghost use Rattle.header.specs.Verdicts.{is_done_phase};

use records::file_format::FileFormat;

// Before the fileformat line; after it, with the version in force; after the column line, with the number of samples too.
#[derive(Clone, Copy)]
pub enum Phase {
    Empty,
    Ready(FileFormat),
    Done(FileFormat, usize),
}

impl Phase {
    pub fn is_done(self) -> bool
        ensures { result ≡ is_done_phase self }
    {
        matches!(self, Phase::Done(_, _))
    }
}
