// The version of a header.
ghost use Rattle.std.specs.Prelude.{◌≡◌};
ghost use Rattle.rules.specs.Version.{earlier, read_version};
ghost use Rattle.records.specs.Formats.{version_of, format_read};

use values::{bytes, integer};

#[derive(Clone, Copy)]
pub struct FileFormat {
    pub major: u32,
    pub minor: u32,
}

impl FileFormat {
    pub const V4_3: FileFormat = FileFormat { major: 4, minor: 3 };

    pub const V4_4: FileFormat = FileFormat { major: 4, minor: 4 };

    pub const V4_5: FileFormat = FileFormat { major: 4, minor: 5 };

    pub fn new(major: u32, minor: u32) -> FileFormat
        ensures { result ≡ record { major = major; minor = minor } }
    {
        FileFormat { major, minor }
    }

    // Whether this version comes before the other: by major, then minor.
    pub fn lt(self, other: FileFormat) -> bool
        ensures { result ≡ earlier (version_of self) (version_of other) }
    {
        self.major < other.major || self.major == other.major && self.minor < other.minor
    }
}

// The value of a fileformat line.
pub fn parse_file_format(s: &[u8]) -> Option<FileFormat>
    ensures { result ≡ format_read (read_version s.now) }
{
    if !bytes::starts_with(s, b"VCFv") {
        return None;
    }
    let point = bytes::find(s, 4, b'.');
    if s.len() <= point {
        return None;
    }
    let Some((major, _)) = integer::parse_u32(&s[4..point]) else {
        return None;
    };
    let Some((minor, _)) = integer::parse_u32(&s[point + 1..]) else {
        return None;
    };
    Some(FileFormat::new(major as u32, minor as u32))
}
