// The check program: reads a header from standard input and prints what `report::print` makes of it.
#![tactic(auto)]

ghost use Rattle.std.specs.Prelude.{◌≡◌, length};

use values::bytes;

// One byte more than the program takes, so that a longer input is seen to be so. The contract gives only the length.
fn input_buffer() -> [u8; 65537]
    ensures { 65537 ≡ length result }
{
    [0; 65537]
}

fn main() {
    let mut buffer = input_buffer();
    let n = io::read_full(0, &mut buffer);
    let mut out = io::buffer();
    let end = report::print(&buffer[..n], &mut out);
    io::write_all(1, bytes::part(&out, 0, end));
}
