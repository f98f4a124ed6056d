// Counts up to 2: 2 stands for several.

#![tactic(auto)]

ghost use Rattle.std.specs.Prelude.{suc, ◌+◌, ◌-◌, ◌*◌, ◌<◌, ◌≡◌, length};
ghost use Rattle.tree_laws.specs.Chart.{cap};
ghost use Rattle.counts.specs.Counts.{dot, splits_at, SpanOf};

// A product of counts.
fn times(a: u32, b: u32) -> u32
    ensures { result ≡ cap (a * b) }
{
    if a == 0 {
        return 0;
    }
    if b == 0 {
        return 0;
    }
    if a > 1 {
        return 2;
    }
    if b > 1 {
        return 2;
    }
    1
}

// A sum of counts.
pub fn plus(a: u32, b: u32) -> u32
    ensures { result ≡ cap (a + b) }
{
    if a > 1 {
        return 2;
    }
    if b > 1 {
        return 2;
    }
    a + b
}

// The sum of the products of two rows; it is left at 2.
pub fn products<'a>(xs: &'a [u32], ys: &'a [u32]) -> u32
    requires { length xs.now ≡ length ys.now }
    ensures { result ≡ cap (dot xs.now ys.now) }
{
    let mut sum = 0;
    for (x, y) in xs.iter().zip(ys) {
        sum = plus(sum, times(*x, *y));
        if sum == 2 {
            return 2;
        }
    }
    sum
}

// In how many ways a nonterminal and what comes after it derive the terminals from i to j: every split between them counts.
pub fn ways(row: &[u32], m: usize, home: usize, after: usize, i: usize, j: usize) -> u32
    requires { SpanOf row.now m home after i j }
    ensures { result ≡ cap (splits_at row.now m home after i j (suc (j - i))) }
{
    let whole = (home * m + i) * m;
    let rest = (after * m + j) * m;
    let a = whole + i;
    let b = rest + i;
    let c = whole + j + 1;
    let d = rest + j + 1;
    products(&row[a..c], &row[b..d])
}
