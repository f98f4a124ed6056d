// The front of a lent work row becomes 0, before it is used or after.

#![tactic(auto)]

ghost use Rattle.std.specs.Prelude.{◌≡◌, ◌≤◌, length, replicate};
ghost use Rattle.grammar.specs.Basics.{over};

// The first n entries become 0.
pub fn clear(row: &mut [u32], n: usize)
    requires { n ≤ length row.old }
    ensures { row.new ≡ over (replicate n 0) row.old }
{
    row[..n].fill(0);
}
