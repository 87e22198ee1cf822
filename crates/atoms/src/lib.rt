// What stands at the front of a question's bytes, told for a token that is no sign: an atom's, or unknown.
#![tactic(auto)]

ghost use Rattle.std.specs.Prelude.{◌≡◌, Bool, ◌∷◌, ◌<◌};
ghost use Rattle.model.specs.declared.Aspect.{Aspect};
ghost use Rattle.model.specs.Atom.{Atom, range_token};
ghost use Rattle.model.specs.Formula.Formula.{atom};
ghost use Rattle.lattice.specs.Signed.{normal};
ghost use Rattle.extents.specs.Extents.{extent_of};
ghost use Rattle.atoms.specs.Measured.{Measured};

use extents::Figures;
use model::Token;

// A formula that was read: its bytes, its tokens, how many of them are atoms, whether these are sound; and under the sign it is used
// in whether each of them can be worked out, and its extent.
#[derive(Clone, Copy)]
pub struct Size {
    pub used: usize,
    pub tokens: usize,
    pub atoms: usize,
    pub sound: bool,
    pub workable: bool,
    pub extent: Option<Figures>,
}

// One structure without bars: the extent of an atom.
fn single() -> Option<Figures>
    ensures { (s : Bool) (a : Atom) → result ≡ extent_of (normal s (atom a)) }
{
    Some(Figures {
        width: 1,
        bars: 0,
        most: 0,
        held: 1,
        pairs: 0,
    })
}

// 01 or 08 before `rest`: five bytes of it are its station, lo and hi, which may be any.
fn range(rest: &[u8], n: usize) -> Option<Size>
    ensures { (s : Bool) (a : Aspect) → Measured n s (range_token a ∷ rest.now) result }
{
    let [s, _, _, _, _, ..] = rest else {
        return None;
    };
    Some(Size {
        used: 6,
        tokens: 1,
        atoms: 1,
        sound: usize::from(*s) < n,
        workable: true,
        extent: single(),
    })
}

// 07 before `rest`: two bytes of it are its stations, which may be the same. It can be worked out as true alone.
fn clear(rest: &[u8], n: usize, sign: bool) -> Option<Size>
    ensures { Measured n sign (7 ∷ rest.now) result }
{
    let [i, j, ..] = rest else {
        return None;
    };
    Some(Size {
        used: 3,
        tokens: 1,
        atoms: 1,
        sound: usize::from(*i) < n && usize::from(*j) < n,
        workable: sign,
        extent: single(),
    })
}

// A token that is no sign, before `rest`: an atom's, or unknown.
pub fn leaf(t: u8, rest: &[u8], n: usize, sign: bool) -> Option<Size>
    requires { 1 < t → t < 7 → ⊥ }
    ensures { Measured n sign (t ∷ rest.now) result }
{
    match Token::try_from(t).ok()? {
        Token::Range(_) => range(rest, n),
        Token::Clear => clear(rest, n, sign),
        _ => None,
    }
}
