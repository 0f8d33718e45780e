// Why a header, a line or an entry is refused: one case for each number of document 01.
ghost use Rattle.std.specs.Prelude.{◌≡◌};
ghost use Rattle.records.specs.Refusals.{number};

#[derive(Clone, Copy)]
pub enum Refusal {
    ExpectedEof,
    LineTooLong,
    InvalidUtf8,
    MissingFileFormat,
    UnexpectedFileFormat,
    InvalidRecord,
    InvalidFileFormat,
    InvalidMap,
    InvalidField,
    DuplicateTag,
    InvalidNumber,
    InvalidType,
    InvalidInteger,
    MissingId,
    MissingNumber,
    MissingType,
    MissingDescription,
    DefinitionMismatch,
    DuplicateId,
    MixedValues,
    DuplicateOtherId,
    InvalidHeader,
    DuplicateSampleName,
    TableFull,
    Empty,
    MissingHeader,
    HeaderTooLong,
    FormTooLong,
    InvalidEntry,
}

impl Refusal {
    pub fn number(self) -> u64
        ensures { result ≡ number self }
    {
        match self {
            Refusal::ExpectedEof => 1,
            Refusal::LineTooLong => 2,
            Refusal::InvalidUtf8 => 3,
            Refusal::MissingFileFormat => 4,
            Refusal::UnexpectedFileFormat => 5,
            Refusal::InvalidRecord => 6,
            Refusal::InvalidFileFormat => 7,
            Refusal::InvalidMap => 8,
            Refusal::InvalidField => 9,
            Refusal::DuplicateTag => 10,
            Refusal::InvalidNumber => 11,
            Refusal::InvalidType => 12,
            Refusal::InvalidInteger => 13,
            Refusal::MissingId => 14,
            Refusal::MissingNumber => 15,
            Refusal::MissingType => 16,
            Refusal::MissingDescription => 17,
            Refusal::DefinitionMismatch => 18,
            Refusal::DuplicateId => 19,
            Refusal::MixedValues => 20,
            Refusal::DuplicateOtherId => 21,
            Refusal::InvalidHeader => 22,
            Refusal::DuplicateSampleName => 23,
            Refusal::TableFull => 24,
            Refusal::Empty => 25,
            Refusal::MissingHeader => 26,
            Refusal::HeaderTooLong => 27,
            Refusal::FormTooLong => 28,
            Refusal::InvalidEntry => 29,
        }
    }
}
