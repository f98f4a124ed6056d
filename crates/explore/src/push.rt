// Indices are put at the queue's end, each once: one index, or a block of them.
ghost use Rattle.std.specs.Prelude.{◌≡◌, ℕ, ◌+◌, ◌*◌, ◌≤◌, ◌<◌, length, get_or};
ghost use Rattle.grammar.specs.Limits.{limits};
ghost use Rattle.triples.specs.Index.{triple_count};
ghost use Rattle.explore.specs.State.{held, Marked, Pushed, Climbs, Along};

// Puts an index at the queue's end unless it is marked. `place` is the place that it was found from.
pub fn push(
    queue: &mut [u32],
    parents: &mut [u32],
    q: usize,
    count: usize,
    place: usize,
    to: usize,
) -> usize
    requires marked { Marked q (held queue.old parents.old count) }
    requires q_le_max_states { (q ≤ limits.max_states) × (place < triple_count q) × (to < triple_count q) }
    ensures { Pushed place (λ x. x ≡ to) (held queue.old parents.old count)
        (held queue.new parents.new result) }
{
    if tops::is_marked(parents, to) {
        return count;
    }
    tops::mark(parents, to);
    tops::put_place(parents, count, place);
    queue[count] = to as u32;
    count + 1
}

// Pushes base + u * stride for each u of the row from one place to before another.
pub fn expand(
    queue: &mut [u32],
    parents: &mut [u32],
    q: usize,
    count: usize,
    place: usize,
    row: &[u16],
    from: usize,
    to: usize,
    base: usize,
    stride: usize,
) -> usize
    requires marked { Marked q (held queue.old parents.old count) }
    requires q_le_max_states { (q ≤ limits.max_states) × (place < triple_count q) × (from ≤ to) × (to ≤ length row.now) }
    requires by_index { (k : ℕ) → from ≤ k → k < to → base + get_or row.now k 0 * stride < triple_count q }
    requires stride_nonzero { (0 < stride) × Climbs row.now from to }
    ensures { Pushed place (Along row.now from to base stride) (held queue.old parents.old count)
        (held queue.new parents.new result) }
{
    let mut end = count;
    for k in from..to {
        let u = usize::from(row[k]);
        end = push(queue, parents, q, end, place, base + u * stride);
    }
    end
}
