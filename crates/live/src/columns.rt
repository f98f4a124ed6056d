// The rules of a checked grammar as columns.
ghost use Rattle.std.specs.Prelude.{◌≡◌};
ghost use Rattle.live.specs.Marks.{before, Columns};

// Of `count` rules the left sides and the lengths of the right sides; and the codes of the right sides, end to end up to `used`.
#[derive(Clone, Copy)]
pub struct Rules<'a> {
    pub lefts: &'a [u16],
    pub lengths: &'a [u16],
    pub codes: &'a [u16],
    pub count: usize,
    pub used: usize,
    ghost columns: { Columns lefts.now lengths.now codes.now count },
    ghost end: { used ≡ before lengths.now count },
}
