// The Number and Type of a field's values.
ghost use Rattle.std.specs.Prelude.{◌≡◌};
ghost use Rattle.values.specs.Bytes.{same};
ghost use Rattle.values.specs.Value.{meaning};
ghost use Rattle.rules.specs.Known.{is_in};
ghost use Rattle.records.specs.Numbers.{letters_of, types_of, lettered, is_number_of, type_name};

use crate::list;
use values::{integer, string};

// What a reserved ID asks of a Number: a count, or a letter of two bytes, of which the second is a blank where it has one.
#[derive(Clone, Copy)]
pub enum Number {
    Count(u64),
    Letter(u8, u8),
}

// The letters that a Number may be: those of every version, those of FORMAT in 4.4, and from 4.5 on.
#[derive(Clone, Copy)]
pub enum Letters {
    Common,
    Phased,
    Local,
}

#[derive(Clone, Copy)]
pub enum ValueType {
    Integer,
    Float,
    Flag,
    Character,
    String,
}

pub fn is_letter_of(s: &[u8], quoted: bool, letters: Letters) -> bool
    ensures { result ≡ is_in (meaning quoted s.now) (letters_of letters) }
{
    match letters {
        Letters::Common => list::is_listed(b"A,R,G,.", s, quoted),
        Letters::Phased => list::is_listed(b"A,R,G,.,P", s, quoted),
        Letters::Local => list::is_listed(b"A,R,G,.,P,LA,LR,LG,M", s, quoted),
    }
}

// `flag`: INFO, which has Flag too.
pub fn is_type(s: &[u8], quoted: bool, flag: bool) -> bool
    ensures { result ≡ is_in (meaning quoted s.now) (types_of flag) }
{
    if flag {
        return list::is_listed(b"Integer,Float,Character,String,Flag", s, quoted);
    }
    list::is_listed(b"Integer,Float,Character,String", s, quoted)
}

fn is_letter(a: u8, b: u8, s: &[u8], quoted: bool) -> bool
    ensures { result ≡ same (lettered a b) (meaning quoted s.now) }
{
    if b == b' ' {
        let one = [a];
        return string::same_meaning(&one, false, s, quoted);
    }
    let two = [a, b];
    string::same_meaning(&two, false, s, quoted)
}

impl Number {
    pub fn is(self, s: &[u8], quoted: bool) -> bool
        ensures { result ≡ is_number_of self s.now quoted }
    {
        match self {
            Number::Count(n) => {
                let Some((m, _)) = integer::parse_u64(s) else {
                    return false;
                };
                m == n
            }
            Number::Letter(a, b) => is_letter(a, b, s, quoted),
        }
    }
}

impl ValueType {
    pub fn is(self, s: &[u8], quoted: bool) -> bool
        ensures { result ≡ same (type_name self) (meaning quoted s.now) }
    {
        match self {
            ValueType::Integer => string::same_meaning(b"Integer", false, s, quoted),
            ValueType::Float => string::same_meaning(b"Float", false, s, quoted),
            ValueType::Flag => string::same_meaning(b"Flag", false, s, quoted),
            ValueType::Character => string::same_meaning(b"Character", false, s, quoted),
            ValueType::String => string::same_meaning(b"String", false, s, quoted),
        }
    }
}
