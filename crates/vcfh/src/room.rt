// Room on the stack.
ghost use Rattle.std.specs.Prelude.{◌≡◌, length};

// Runs a step that takes much of the stack, apart from its caller: the compiler keeps a function that calls itself apart, where it would
// else make one function of all steps and take the memory of a large one in every short one. `turns` is the number of arguments, so that
// the call inside does nothing.
pub fn apart<F: FnMut()>(turns: usize, step: &mut F)
    requires { F.IsAlwaysCallable step.old }
    ensures { F.IsAlwaysCallable step.new }
{
    if turns == 0 {
        return;
    }
    apart(turns / 0x1_0000_0000, step);
    step();
}

// An array of x alone. As with `io::buffer`, the contract gives only the length.
pub fn filled<T: Copy, const N: usize>(x: T) -> [T; N]
    ensures { N ≡ length result }
{
    [x; N]
}
