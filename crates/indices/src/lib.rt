// The index of a triple, as a sum of products: nothing is tested.

#![tactic(auto)]

ghost use Rattle.std.specs.Prelude.{◌≡◌, ◌≤◌, ◌<◌, ◌^◌};
ghost use Rattle.grammar.specs.Limits.{limits};
ghost use Rattle.triples.specs.Index.{index};

// f×Q² + p×Q + r. The layer may be any byte, and the states any cells of 16 bits: what is no triple has a number too.
pub fn index_of(q: usize, f: usize, p: usize, r: usize) -> usize
    requires { (q ≤ limits.max_states) × (f < 2 ^ 8) × (p < 2 ^ 16) × (r < 2 ^ 16) }
    ensures { result ≡ index q f p r }
{
    f * (q * q) + p * q + r
}
