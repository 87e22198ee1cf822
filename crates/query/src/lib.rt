// Whether a question's bytes are exactly one formula, with sound atoms, its size within the limits and each atom under a sign in which
// it can be worked out, and the figures of such a one.
#![tactic(auto)]

ghost use Rattle.std.specs.Prelude.{◌≡◌, List, ◌∷◌, ℕ, ◌≤◌, length, drop};
ghost use Rattle.model.specs.Formula.{formula_of};
ghost use Rattle.query.specs.Judged.{judged, figures_in};
ghost use Rattle.atoms.specs.Measured.{Measured, Sized};
ghost use Rattle.query.specs.Sizes.{Short, Longer, Together, modal_byte, pair_byte};

use atoms::{Size, leaf};
use extents::{Figures, join, lift};
use model::{Fault, Token};

// A size with one token more in front.
fn longer(z: Size, extent: Option<Figures>) -> Size
    requires { Short z }
    ensures { Longer z extent result }
{
    Size {
        used: z.used + 1,
        tokens: z.tokens + 1,
        extent,
        ..z
    }
}

// Two sizes with one token in front.
fn together(y: Size, z: Size, extent: Option<Figures>) -> Size
    requires { Short y × Short z }
    ensures { Together y z extent result }
{
    Size {
        used: y.used + z.used + 1,
        tokens: y.tokens + z.tokens + 1,
        atoms: y.atoms + z.atoms,
        sound: y.sound && z.sound,
        workable: y.workable && z.workable,
        extent,
    }
}

// Possibly works on its operand as true, always on its operand as false.
fn modal(possibly: bool, sign: bool, z: Size) -> Size
    requires { Short z }
    ensures { (n : ℕ) (q : List ℕ) → Sized n possibly q z → Sized n sign (modal_byte possibly ∷ q) result }
{
    longer(z, lift(z.extent, possibly == sign))
}

// "and" under negation is joined as "or" and the reverse. By reference, since copies would lie on the stack at each depth of `measure`.
fn paired(and: bool, sign: bool, y: &Size, z: &Size) -> Size
    requires { Short y.now × Short z.now }
    ensures { (n : ℕ) (q : List ℕ) → Sized n sign q y.now → Sized n sign (drop y.now.used q) z.now → Sized n sign (pair_byte and ∷ q) result }
{
    together(*y, *z, join(y.extent, z.extent, and == sign))
}

// The size of the formula at the front of q under a sign, where there is one.
fn measure(q: &[u8], n: usize, sign: bool) -> Option<Size>
    requires { length q.now ≤ 99 }
    ensures { Measured n sign q.now result }
{
    let (t, rest) = q.split_first()?;
    let token = Token::try_from(*t).ok()?;
    // By tests, since a match over the signs clears the places of all operands first, at every token.
    if matches!(token, Token::Not) {
        let z = measure(rest, n, !sign)?;
        return Some(longer(z, z.extent));
    }
    if matches!(token, Token::And | Token::Or) {
        let y = measure(rest, n, sign)?;
        let z = measure(&rest[y.used..], n, sign)?;
        return Some(paired(matches!(token, Token::And), sign, &y, &z));
    }
    if matches!(token, Token::Possibly | Token::Always) {
        let possibly = matches!(token, Token::Possibly);
        let z = measure(rest, n, possibly)?;
        return Some(modal(possibly, sign, z));
    }
    // A token that is no sign: an atom more needs no test here.
    leaf(*t, rest, n, sign)
}

// Whether the question is one formula, its atoms sound, not too large, and each atom can be worked out; if so, its figures.
pub fn judge(q: &[u8], n: usize) -> Result<Figures, Fault>
    requires { length q.now ≤ 99 }
    ensures { result ≡ judged n (formula_of q.now) }
{
    let z = measure(q, n, true).ok_or(Fault::Formula)?;
    if z.used != q.len() || !z.sound {
        return Err(Fault::Formula);
    }
    if 32 < z.tokens || 12 < z.atoms {
        return Err(Fault::Size);
    }
    let g = z.extent.ok_or(Fault::Size)?;
    if !z.workable {
        return Err(Fault::Unworkable);
    }
    Ok(g)
}

// The figures of a question that is fine, as every question of an accepted log is; zeros for any other.
pub fn figures(q: &[u8], n: usize) -> Figures
    requires { length q.now ≤ 99 }
    ensures { result ≡ figures_in (judged n (formula_of q.now)) }
{
    judge(q, n).unwrap_or(Figures {
        width: 0,
        bars: 0,
        most: 0,
        held: 0,
        pairs: 0,
    })
}
