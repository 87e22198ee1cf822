// The test of one value: inside a range, outside it or silent, and whether it passes as true or as false.
#![tactic(auto)]

ghost use Rattle.std.specs.Prelude.{◌≡◌};
ghost use Rattle.model.specs.Atom.{is_silent, within, test, passes};

use model::{Aspect, Finding};

// The value that a station reports while it is rebooting.
const SILENT: u16 = 0xFFFF;

// Is what is looked at that of a station that is silent? A panel of that number is one like any other.
fn silent(a: Aspect, v: u16) -> bool
    ensures { result ≡ is_silent a v }
{
    match a {
        Aspect::Value => v == SILENT,
        Aspect::Panel => false,
    }
}

// Is a number from lo to hi? Where lo is above hi the range goes through zero.
#[tactic(auto, unfolding(model::specs::Atom::within, model::specs::Lists::between))]
fn within(lo: u16, hi: u16, v: u16) -> bool
    ensures { result ≡ within lo hi v }
{
    if lo <= hi {
        lo <= v && v <= hi
    } else {
        lo <= v || v <= hi
    }
}

// The test of one value, or panel, by a range.
fn test(a: Aspect, lo: u16, hi: u16, v: u16) -> Finding
    ensures { result ≡ test a lo hi v }
{
    if silent(a, v) {
        return Finding::Silent;
    }
    if within(lo, hi, v) {
        Finding::Inside
    } else {
        Finding::Outside
    }
}

// Does a value, or a panel, pass a range, as true or as false?
#[tactic(auto, unfolding(model::specs::Atom::passes, model::specs::Atom::is_inside, model::specs::Atom::is_outside))]
pub fn passes(sign: bool, a: Aspect, lo: u16, hi: u16, v: u16) -> bool
    ensures { result ≡ passes sign a lo hi v }
{
    match test(a, lo, hi, v) {
        Finding::Inside => sign,
        Finding::Outside => !sign,
        Finding::Silent => false,
    }
}
