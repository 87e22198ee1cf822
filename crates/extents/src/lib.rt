// How large the basis of a formula gets and what working it out takes: its figures, by the joining of extents.
#![tactic(auto)]

ghost use Rattle.std.specs.Prelude.{◌≡◌, ◌≤◌, max};
ghost use Rattle.model.specs.Rules.{Normal};
ghost use Rattle.lattice.specs.Signed.{joined_form, lifted_form};
ghost use Rattle.extents.specs.Extents.{extent_of, bounded, joined, lifted, Modest, Small};

// The figures of a formula under the sign it is used in: width, bar count, the largest bar count at any token, structures held, and
// the pairs of structures that its signs joined as "and" intersect if none is dropped.
#[derive(Clone, Copy)]
pub struct Figures {
    pub width: u16,
    pub bars: u16,
    pub most: u16,
    pub held: u16,
    pub pairs: u16,
}

// Figures whose width and bar count are within their limits.
#[tactic(auto, unfolding(crate::specs::Extents::bounded))]
fn limit(g: Figures) -> Option<Figures>
    ensures { result ≡ bounded g }
{
    (g.width <= 16 && g.bars <= 16).then_some(g)
}

// Two operands joined to a width and a bar count, with so many pairs intersected. Held are the left's structures; the right's, behind
// the left's basis; or the result's, behind both bases.
fn joined(a: Figures, b: Figures, width: u16, bars: u16, pairs: u16) -> Figures
    requires { Modest a × Modest b × (width ≤ 256) × (pairs ≤ 256) }
    ensures { result ≡ joined a b width bars pairs }
{
    let left = a.width;
    let right = left + b.held;
    let result = left + b.width + width;
    Figures {
        width,
        bars,
        most: bars.max(a.most.max(b.most)),
        held: a.held.max(right.max(result)),
        pairs: a.pairs + b.pairs + pairs,
    }
}

// One operand lifted to a width and a bar count.
fn lifted(a: Figures, width: u16, bars: u16) -> Figures
    requires { Modest a × (width ≤ 16) }
    ensures { result ≡ lifted a width bars }
{
    Figures {
        width,
        bars,
        most: bars.max(a.most),
        held: a.held.max(a.width + width),
        pairs: a.pairs,
    }
}

// "and" multiplies widths, intersects as many pairs, and adds bars; "or" adds widths and keeps the larger bar count.
// None: width or bar count is over its limit at some token.
// By a flag: sign and token say together which it is, and the contract goes by it.
pub fn join(a: Option<Figures>, b: Option<Figures>, pair: bool) -> Option<Figures>
    requires { Small a × Small b }
    ensures { (p q : Normal) → a ≡ extent_of p → b ≡ extent_of q → result ≡ extent_of (joined_form pair p q) }
{
    let x = a?;
    let y = b?;
    if pair {
        let w = x.width * y.width;
        limit(joined(x, y, w, x.bars + y.bars, w))
    } else {
        limit(joined(x, y, x.width + y.width, x.bars.max(y.bars), 0))
    }
}

// Possibly keeps the width and has no bars, not possibly has one structure with a bar for each of the operand's. Neither width nor
// bar count passes the operand's width, so neither is tested against its limit.
// By a flag: sign and token say together which it is, and the contract goes by it.
pub fn lift(a: Option<Figures>, keep: bool) -> Option<Figures>
    requires { Small a }
    ensures { (p : Normal) → a ≡ extent_of p → result ≡ extent_of (lifted_form keep p) }
{
    let x = a?;
    Some(if keep {
        lifted(x, x.width, 0)
    } else {
        lifted(x, 1, x.width)
    })
}
