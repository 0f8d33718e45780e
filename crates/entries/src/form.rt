// The forms in which entries are stored. The caller names one wherever a table is lent.
ghost use Rattle.std.specs.Prelude.{◌≡◌};
ghost use Rattle.rules.specs.Entry.{if_counted};
ghost use Rattle.entries.specs.Values.{limits_of, limits_by};
ghost use Rattle.entries.specs.Words.{word_count};

use crate::limits::Limits;

// A header of up to a megabyte; one of up to sixteen.
#[derive(Clone, Copy)]
pub enum Form {
    First,
    Second,
}

impl Form {
    pub fn limits(self) -> Limits
        ensures { limits_of result ≡ limits_by self }
    {
        match self {
            Form::First => Limits::FIRST,
            Form::Second => Limits::SECOND,
        }
    }

    // How many words an entry takes.
    pub fn words(self) -> usize
        ensures { result ≡ word_count self }
    {
        match self {
            Form::First => 2,
            Form::Second => 3,
        }
    }

    // A number that only the second form tells.
    pub fn counted(self, n: usize) -> usize
        ensures { result ≡ if_counted (limits_by self).counted n }
    {
        match self {
            Form::First => 0,
            Form::Second => n,
        }
    }
}
