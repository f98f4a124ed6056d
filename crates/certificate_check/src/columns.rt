// Columns of one row of the certificate, tested together: the triples (f, a, b) with one f and one a have the targets of a in
// common. Every answer goes one way: true says that what was asked for is held, false says nothing.
ghost use Rattle.std.specs.Prelude.{◌≡◌, true, ℕ, ◌+◌, ◌*◌, ◌≤◌, ◌<◌, length, get_or};
ghost use Rattle.grammar.specs.Limits.{limits};
ghost use Rattle.triples.specs.Index.{index, triple_count};
ghost use Rattle.triples.specs.Certificate.{is_set};
ghost use Rattle.bits.specs.Windows.{wide_bits};
ghost use Rattle.plans.specs.Plan.{rows, side_of};
ghost use Rattle.plans.specs.Clauses.{most_square, Verified};
ghost use Rattle.certificate_check.specs.Columns.{Placed, RowHeld, PairsHeld, Noted, Met, ColumnsMet, LeftHeld, ClosedAt, ClosedFrom};

use grammar::MAX_STATES;
use indices::index_of;
use moves::CLASSES;
use plans::Side;

// The columns that are tried together: so many bits eight bytes have, wherever an index lies in the first of them.
pub const COLUMNS: usize = 57;

// Are the targets of a class held in a row?
fn row_held<'a>(
    first: &'a [u16; CLASSES],
    targets: &'a [u16; MAX_STATES],
    q: usize,
    bytes: &'a [u8],
    kind: u16,
    row: usize,
) -> bool
    requires q_le_max_states { (q ≤ limits.max_states) × (row < 2 * q) × (triple_count q ≤ 8 * length bytes.now) }
    requires placed { Placed first.now targets.now q kind }
    ensures { result ≡ true → RowHeld first.now targets.now q bytes.now kind row }
{
    let c = usize::from(kind);
    let from = usize::from(first[c]);
    let end = usize::from(first[c + 1]);
    let span = end - from;
    let base = row * q;
    for k in 0..span {
        let u = usize::from(targets[from + k]);
        if !bits::is_set(bytes, base + u) {
            return false;
        }
    }
    true
}

// The columns from base on that the rows of all targets of a class hold.
fn meet<'a>(
    targets: &'a [u16; MAX_STATES],
    q: usize,
    bytes: &'a [u8],
    from: usize,
    span: usize,
    base: usize,
) -> u64
    requires in_bounds { (8 ≤ length bytes.now) × (q ≤ limits.max_states) × (from + span ≤ limits.max_states) × (base ≤ 2 * most_square) }
    requires by_index { (k : ℕ) → k < span → base + get_or targets.now (from + k) 0 * q < 8 * length bytes.now }
    ensures { Met bytes.now targets.now q from span base result }
{
    let mut w = 18446744073709551615;
    for k in 0..span {
        let u = usize::from(targets[from + k]);
        w = w & bits::wide_window(bytes, base + u * q);
    }
    w
}

// How far the targets of a class, which are laid from `from` on, have their columns in a window that begins at column `begin`: those
// from number k on, up to the first whose column lies outside or is not held, or up to `span`.
fn columns_met(
    targets: &[u16; MAX_STATES],
    near: u64,
    begin: usize,
    from: usize,
    k: usize,
    span: usize,
) -> usize
    requires { (from + span ≤ limits.max_states) × (k ≤ span) }
    ensures { (result ≤ span) × ColumnsMet targets.now near begin from k result }
{
    for h in k..span {
        let v = usize::from(targets[from + h]);
        if v < begin {
            return h;
        }
        if COLUMNS <= v - begin {
            return h;
        }
        if (near >> (v - begin)) % 2 == 0 {
            return h;
        }
    }
    span
}

// Are the pairs held of a target of one class and one of another? The rows of all targets of the left class are taken together, a
// window of columns at a time.
fn pairs_held<'a>(
    first: &'a [u16; CLASSES],
    targets: &'a [u16; MAX_STATES],
    q: usize,
    bytes: &'a [u8],
    left: u16,
    right: u16,
) -> bool
    requires q_le_max_states { (q ≤ limits.max_states) × (triple_count q ≤ 8 * length bytes.now) }
    requires placed { Placed first.now targets.now q left }
    requires placed_2 { Placed first.now targets.now q right }
    ensures { result ≡ true → PairsHeld first.now targets.now q bytes.now left right }
{
    if bytes.len() < 8 {
        return false;
    }
    let c = usize::from(left);
    let rows = usize::from(first[c]);
    let height = usize::from(first[c + 1]) - rows;
    let d = usize::from(right);
    let from = usize::from(first[d]);
    let span = usize::from(first[d + 1]) - from;
    let mut k = 0;
    while k < span {
        let begin = usize::from(targets[from + k]);
        let base = index_of(q, 1, 0, begin);
        let near = meet(targets, q, bytes, rows, height, base);
        let next = columns_met(targets, near, begin, from, k, span);
        if next <= k {
            return false;
        }
        k = next;
    }
    true
}

// Are the left moves held, if there are any? `near` says whether the rows of the targets hold the column.
fn left_held(left: usize, near: bool) -> bool
    ensures { result ≡ true → 0 < left → near ≡ true }
{
    if left == 0 {
        return true;
    }
    near
}

// Is the shift of a and b held, if there is one? Where there is none, nothing of `after` is read.
fn shift_held<'a>(
    after: &'a [u16; MAX_STATES],
    q: usize,
    bytes: &'a [u8],
    f: usize,
    a: usize,
    b: usize,
    shift: usize,
) -> bool
    requires q_le_max_states { (q ≤ limits.max_states) × (f ≤ 1) × (a < q) × (b < q) }
    requires b_bound { 0 < shift → index q f (get_or after.now a 0) (get_or after.now b 0) < 8 * length bytes.now }
    ensures { result ≡ true → 0 < shift → is_set bytes.now (index q f (get_or after.now a 0) (get_or after.now b 0)) ≡ true }
{
    if shift == 0 {
        return true;
    }
    let u = usize::from(after[a]);
    let v = usize::from(after[b]);
    let beside = index_of(q, f, u, v);
    bits::is_set(bytes, beside)
}

// Are the right moves held, if there are any? `seen` notes the last row in which the targets of a class were found held.
fn right_held<'a>(
    first: &'a [u16; CLASSES],
    targets: &'a [u16; MAX_STATES],
    q: usize,
    bytes: &'a [u8],
    right: usize,
    kind: u16,
    row: usize,
    seen: &mut [u16; CLASSES],
) -> bool
    requires q_le_max_states { (q ≤ limits.max_states) × (row < 2 * q) × (triple_count q ≤ 8 * length bytes.now) }
    requires placed { Placed first.now targets.now q kind }
    requires noted { Noted first.now targets.now q bytes.now seen.old }
    ensures row_held { result ≡ true → 0 < right → RowHeld first.now targets.now q bytes.now kind row }
    ensures noted_2 { Noted first.now targets.now q bytes.now seen.new }
{
    if right == 0 {
        return true;
    }
    let c = usize::from(kind);
    if usize::from(seen[c]) == row + 1 {
        return true;
    }
    if !row_held(first, targets, q, bytes, kind, row) {
        return false;
    }
    seen[c] = (row + 1) as u16;
    true
}

// Are the pairs of two closings held, if there are any? `seen` notes the last class whose pairs with a class were found held.
fn parts_held<'a>(
    first: &'a [u16; CLASSES],
    targets: &'a [u16; MAX_STATES],
    q: usize,
    bytes: &'a [u8],
    pairs: usize,
    left: u16,
    right: u16,
    seen: &mut [u16; CLASSES],
) -> bool
    requires q_le_max_states { (q ≤ limits.max_states) × (triple_count q ≤ 8 * length bytes.now) }
    requires placed { Placed first.now targets.now q left }
    requires placed_2 { Placed first.now targets.now q right }
    requires noted { Noted first.now targets.now q bytes.now seen.old }
    ensures pairs_held { result ≡ true → 0 < pairs → PairsHeld first.now targets.now q bytes.now left right }
    ensures noted_2 { Noted first.now targets.now q bytes.now seen.new }
{
    if pairs == 0 {
        return true;
    }
    let c = usize::from(right);
    let note = 2 * q + usize::from(left) + 1;
    if usize::from(seen[c]) == note {
        return true;
    }
    if !pairs_held(first, targets, q, bytes, left, right) {
        return false;
    }
    seen[c] = note as u16;
    true
}

// Are all successors of (f, a, b) held? `x` is the side of a.
fn column_held<'a>(
    ahead: &'a [u16; MAX_STATES],
    number: &'a [u16; MAX_STATES],
    member: &'a [u16; MAX_STATES],
    first: &'a [u16; CLASSES],
    after: &'a [u16; MAX_STATES],
    targets: &'a [u16; MAX_STATES],
    t: u16,
    m: u16,
    q: usize,
    bytes: &'a [u8],
    f: usize,
    a: usize,
    x: Side,
    b: usize,
    near: bool,
    seen: &mut [u16; CLASSES],
) -> bool
    requires verified { Verified (rows ahead.now number.now member.now first.now after.now) targets.now t m q }
    requires f_bound { (f ≤ 1) × (a < q) × (b < q) × (triple_count q ≤ 8 * length bytes.now) }
    requires x_value { x ≡ side_of member.now first.now a }
    requires left_held { near ≡ true → LeftHeld (rows ahead.now number.now member.now first.now after.now) targets.now m q bytes.now f a b }
    requires noted { Noted first.now targets.now q bytes.now seen.old }
    ensures closed_at { result ≡ true → ClosedAt (rows ahead.now number.now member.now first.now after.now) targets.now t m q bytes.now (index q f a b) }
    ensures noted_2 { Noted first.now targets.now q bytes.now seen.new }
{
    let y = plans::side_of(member, first, b);
    let left = plans::alone_of(ahead, t, m, f, x, b);
    if !left_held(left, near) {
        return false;
    }
    let shift = plans::shift_of(ahead, t, f, a, b);
    if !shift_held(after, q, bytes, f, a, b, shift) {
        return false;
    }
    let right = plans::alone_of(ahead, t, m, f, y, a);
    let row = plans::layer_after(m, f, y) * q + a;
    if !right_held(first, targets, q, bytes, right, y.kind, row, seen) {
        return false;
    }
    let pairs = plans::pairs_of(number, m, f, a, b, x, y);
    parts_held(first, targets, q, bytes, pairs, x.kind, y.kind, seen)
}

// Are all successors held of what is held of n columns of the row of (f, a), from b on?
pub fn columns_closed<'a>(
    ahead: &'a [u16; MAX_STATES],
    number: &'a [u16; MAX_STATES],
    member: &'a [u16; MAX_STATES],
    first: &'a [u16; CLASSES],
    after: &'a [u16; MAX_STATES],
    targets: &'a [u16; MAX_STATES],
    t: u16,
    m: u16,
    q: usize,
    bytes: &'a [u8],
    f: usize,
    a: usize,
    b: usize,
    n: usize,
    seen: &mut [u16; CLASSES],
) -> bool
    requires verified { Verified (rows ahead.now number.now member.now first.now after.now) targets.now t m q }
    requires f_bound { (f ≤ 1) × (a < q) × (b < q) × (b + n ≤ q) × (n ≤ wide_bits) × (triple_count q ≤ 8 * length bytes.now) }
    requires noted { Noted first.now targets.now q bytes.now seen.old }
    ensures closed_from { result ≡ true → ClosedFrom (rows ahead.now number.now member.now first.now after.now) targets.now t m q bytes.now (index q f a b) n }
    ensures noted_2 { Noted first.now targets.now q bytes.now seen.new }
{
    if bytes.len() < 8 {
        return false;
    }
    let x = plans::side_of(member, first, a);
    let base = index_of(q, plans::layer_after(m, f, x), 0, b);
    let near = meet(targets, q, bytes, x.from, x.span, base);
    let window = bits::wide_window(bytes, index_of(q, f, a, b));
    let mut w = window % (1u64 << n);
    let mut c = 0;
    while w != 0 {
        let k = bits::lowest_one(w);
        c += k;
        let held = (near >> c) % 2 == 1;
        if !column_held(
            ahead,
            number,
            member,
            first,
            after,
            targets,
            t,
            m,
            q,
            bytes,
            f,
            a,
            x,
            b + c,
            held,
            seen,
        ) {
            return false;
        }
        c += 1;
        w = (w >> k) / 2;
    }
    true
}
