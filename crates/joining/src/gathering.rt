// The names of both texts gathered into one row of bytes, with rows of where they start and how long they are, for the writer.
ghost use Rattle.std.specs.Prelude.{◌≡◌, [], ◌∷◌, ◌+◌, length, get_or};
ghost use Rattle.text.specs.Spelled.{spelled};
ghost use Rattle.joining.specs.Gathering.{fresh, kind_names, Puts, OneReady, MaybeReady, AllReady, FreshReady, KindReady};
ghost use Rattle.joining.specs.Gathering.{NamesReady, NamesGathered};

use super::ListSizes;

// The bytes of the longest name (names::is_name takes 1 to 15), which is the place that each gathered name has.
pub const LONGEST_NAME: usize = 15;

// Puts name i of a text after k others.
fn put_one(
    text: &[u8],
    starts: &[u32],
    lengths: &[u32],
    i: usize,
    bytes: &mut [u8],
    places: &mut [u32],
    spans: &mut [u32],
    k: usize,
)
    requires { OneReady text.now starts.now lengths.now i bytes.old places.old spans.old k }
    ensures { Puts (get_or (spelled text.now starts.now lengths.now) i [] ∷ []) k
        bytes.old places.old spans.old bytes.new places.new spans.new }
{
    let at = k * LONGEST_NAME;
    places[k] = at as u32;
    spans[k] = lengths[i];
    text_write::put_name(bytes, at, text, starts, lengths, i);
}

// Puts all names of the rows after k others.
fn put_all(
    text: &[u8],
    starts: &[u32],
    lengths: &[u32],
    bytes: &mut [u8],
    places: &mut [u32],
    spans: &mut [u32],
    k: usize,
)
    requires { AllReady text.now starts.now lengths.now bytes.old places.old spans.old k }
    ensures { Puts (spelled text.now starts.now lengths.now) k
        bytes.old places.old spans.old bytes.new places.new spans.new }
{
    for i in 0..starts.len() {
        put_one(text, starts, lengths, i, bytes, places, spans, k + i);
    }
}

// Puts name i, of this number, after k others if its number is not below `least`. Gives how many there are then.
fn put_if_fresh(
    text: &[u8],
    starts: &[u32],
    lengths: &[u32],
    i: usize,
    number: usize,
    least: usize,
    bytes: &mut [u8],
    places: &mut [u32],
    spans: &mut [u32],
    k: usize,
) -> usize
    requires { MaybeReady text.now starts.now lengths.now i number least bytes.old places.old spans.old k }
    ensures count { result
        ≡ k + length (fresh least (number ∷ []) (get_or (spelled text.now starts.now lengths.now) i [] ∷ [])) }
    ensures rows { Puts (fresh least (number ∷ []) (get_or (spelled text.now starts.now lengths.now) i [] ∷ [])) k
        bytes.old places.old spans.old bytes.new places.new spans.new }
{
    if number < least {
        return k;
    }
    put_one(text, starts, lengths, i, bytes, places, spans, k);
    k + 1
}

// Puts the names whose number is not below `least` after k others.
fn put_fresh(
    text: &[u8],
    starts: &[u32],
    lengths: &[u32],
    numbers: &[u32],
    least: usize,
    bytes: &mut [u8],
    places: &mut [u32],
    spans: &mut [u32],
    k: usize,
)
    requires { FreshReady text.now starts.now lengths.now numbers.now least bytes.old places.old spans.old k }
    ensures { Puts (fresh least numbers.now (spelled text.now starts.now lengths.now)) k
        bytes.old places.old spans.old bytes.new places.new spans.new }
{
    let mut to = k;
    for (i, number) in numbers.iter().enumerate() {
        to = put_if_fresh(
            text,
            starts,
            lengths,
            i,
            *number as usize,
            least,
            bytes,
            places,
            spans,
            to,
        );
    }
}

// Puts the names of one kind after k others: all of the robot's, then those that the module adds.
fn put_kind(
    robot: &[u8],
    starts: &[u32],
    lengths: &[u32],
    addon: &[u8],
    firsts: &[u32],
    widths: &[u32],
    numbers: &[u32],
    bytes: &mut [u8],
    places: &mut [u32],
    spans: &mut [u32],
    k: usize,
)
    requires { KindReady robot.now starts.now lengths.now addon.now firsts.now widths.now numbers.now
        bytes.old places.old spans.old k }
    ensures { Puts (kind_names robot.now starts.now lengths.now
        addon.now firsts.now widths.now numbers.now) k
        bytes.old places.old spans.old bytes.new places.new spans.new }
{
    let n = starts.len();
    put_all(robot, starts, lengths, bytes, places, spans, k);
    put_fresh(
        addon,
        firsts,
        widths,
        numbers,
        n,
        bytes,
        places,
        spans,
        k + n,
    );
}

// Gathers the joined names: the terminals of both texts, then the nonterminals.
pub fn gather_names(
    robot: &[u8],
    addon: &[u8],
    sizes: ListSizes,
    starts: &[u32],
    lengths: &[u32],
    firsts: &[u32],
    widths: &[u32],
    terminals: &[u32],
    nonterminals: &[u32],
    bytes: &mut [u8],
    places: &mut [u32],
    spans: &mut [u32],
)
    requires { NamesReady robot.now addon.now sizes starts.now lengths.now firsts.now widths.now terminals.now nonterminals.now
        bytes.old places.old spans.old }
    ensures { NamesGathered robot.now addon.now sizes bytes.new places.new spans.new }
{
    let t = sizes.t;
    let u = sizes.u;
    let m = t + sizes.n;
    let k = u + sizes.v;
    put_kind(
        robot,
        &starts[..t],
        &lengths[..t],
        addon,
        &firsts[..u],
        &widths[..u],
        &terminals[..u],
        bytes,
        places,
        spans,
        0,
    );
    put_kind(
        robot,
        &starts[t..m],
        &lengths[t..m],
        addon,
        &firsts[u..k],
        &widths[u..k],
        &nonterminals[..sizes.v],
        bytes,
        places,
        spans,
        sizes.terminals,
    );
}
