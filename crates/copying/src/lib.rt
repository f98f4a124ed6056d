// The cells of a row, copied to another of the same length by a loop: the archive for C asks for no memmove.

#![tactic(auto)]

ghost use Rattle.std.specs.Prelude.{◌≡◌, length};

pub fn copy<T: Copy>(to: &mut [T], from: &[T])
    requires { length to.old ≡ length from.now }
    ensures { to.new ≡ from.now }
{
    for (i, cell) in to.iter_mut().enumerate() {
        *cell = from[i];
    }
}
