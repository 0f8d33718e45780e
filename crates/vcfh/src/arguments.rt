// The program's arguments, as the bytes that they are.
ghost use Rattle.std.specs.Prelude.{◌≤◌, length};

use std::env::FillError;
use std::rt::Env;

// Puts the argument of this number at the start of the buffer and answers its length: 0 where there is none, and where it is longer than
// the buffer, which then has its first bytes.
pub fn arg(rt: HostRuntime, number: usize, buffer: &mut [u8]) -> usize
    ensures { result ≤ length buffer.new }
{
    rt.arg(number, buffer).unwrap_or(0)
}

// Whether the argument of this number is this word.
pub fn is(rt: HostRuntime, number: usize, word: &[u8]) -> bool {
    let mut buffer = io::buffer();
    let end = arg(rt, number, &mut buffer);
    &buffer[..end] == word
}

// Whether there is an argument of this number.
fn is_there(rt: HostRuntime, number: usize) -> bool {
    !matches!(rt.arg(number, &mut []), Err(FillError::NotPresent))
}

// How many arguments there are, the program's name among them.
pub fn count(rt: HostRuntime) -> usize {
    let most = 0x1_0000_0000;
    (0..most).find(|n| !is_there(rt, *n)).unwrap_or(most)
}
