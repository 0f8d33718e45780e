// Writing into a lent output, where nothing is held against it.
ghost use Rattle.std.specs.Prelude.{[], ◌∷◌};
ghost use Rattle.values.specs.Integer.{decimal};
ghost use Rattle.values.specs.Written.{Wrote};

use crate::sink;
use crate::sink::Sink;

pub fn put_byte(out: &mut [u8], at: usize, b: u8) -> usize
    ensures { Wrote out.old at (b ∷ []) result out.new }
{
    let next = sink::put_byte(out, b"", Sink { at, differs: 0 }, b);
    next.at
}

pub fn put_bytes(out: &mut [u8], at: usize, s: &[u8]) -> usize
    ensures { Wrote out.old at s.now result out.new }
{
    let next = sink::put_bytes(out, b"", Sink { at, differs: 0 }, s);
    next.at
}

pub fn put_decimal(out: &mut [u8], at: usize, n: u64) -> usize
    ensures { Wrote out.old at (decimal n) result out.new }
{
    let next = sink::put_decimal(out, b"", Sink { at, differs: 0 }, n);
    next.at
}
