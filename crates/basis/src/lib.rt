// The basis of a formula and of its negation, worked out by two functions that call each other.
#![tactic(auto)]

ghost use Rattle.std.specs.Prelude.{true, false, length};
ghost use Rattle.token.specs.Contract.{Ready, Made};
ghost use Rattle.basis.specs.Form.{FormOf};

use joining::combine;
use model::Token;
use structure::Run;
use token::{Basis, leaf, lift, passed};

// What a formula is, by its token. An own enum beside Token: both rules take 03 and 04 in one arm, and an or-pattern tells a proof of neither.
#[derive(Clone, Copy)]
enum Form {
    Atom,
    Not,
    Two { and: bool },
    Possibly,
    Always,
}

// The form that a token says; a byte that is none begins no formula.
impl From<u8> for Form {
    ghost from_gives = { FormOf };

    fn from(byte: u8) -> Form {
        let Ok(token) = Token::try_from(byte) else {
            return Form::Atom;
        };
        match token {
            Token::Not => Form::Not,
            Token::And => Form::Two { and: true },
            Token::Or => Form::Two { and: false },
            Token::Possibly => Form::Possibly,
            Token::Always => Form::Always,
            // A token that is no sign: an atom more needs no arm here.
            _ => Form::Atom,
        }
    }
}

// A formula as true.
// Two functions in a cycle, as document 01 asks for two rules that call each other.
#[cycle(basis_false_basis_true)]
pub fn basis_true(q: &[u8], ws: &mut [u8], bs: &mut [u8], run: &Run<'_>) -> Basis
    requires { Ready true run.now q.now (length ws.old) (length bs.old) }
    ensures { Made true run.now q.now result.sets result.used result.rounds ws.new bs.new }
{
    let rest = &q[1..];
    match Form::from(q[0]) {
        Form::Atom => leaf(q, ws, bs, run, true),
        Form::Not => passed(basis_false(rest, ws, bs, run)),
        Form::Two { and } => {
            let l = basis_true(rest, ws, bs, run);
            let k = l.sets.count * ((run.x.e + 1) * run.x.n);
            let b = l.sets.count * (16 * run.x.n);
            let r = basis_true(&rest[l.used..], &mut ws[k..], &mut bs[b..], run);
            combine(ws, bs, and, l, r, run.x, run.starts)
        }
        Form::Possibly => {
            let p = basis_true(rest, ws, bs, run);
            lift(ws, bs, true, p, run.x, run.starts)
        }
        Form::Always => {
            let p = basis_false(rest, ws, bs, run);
            lift(ws, bs, false, p, run.x, run.starts)
        }
    }
}

// A formula as false.
#[cycle(basis_false_basis_true)]
pub fn basis_false(q: &[u8], ws: &mut [u8], bs: &mut [u8], run: &Run<'_>) -> Basis
    requires { Ready false run.now q.now (length ws.old) (length bs.old) }
    ensures { Made false run.now q.now result.sets result.used result.rounds ws.new bs.new }
{
    let rest = &q[1..];
    match Form::from(q[0]) {
        Form::Atom => leaf(q, ws, bs, run, false),
        Form::Not => passed(basis_true(rest, ws, bs, run)),
        Form::Two { and } => {
            let l = basis_false(rest, ws, bs, run);
            let k = l.sets.count * ((run.x.e + 1) * run.x.n);
            let b = l.sets.count * (16 * run.x.n);
            let r = basis_false(&rest[l.used..], &mut ws[k..], &mut bs[b..], run);
            combine(ws, bs, !and, l, r, run.x, run.starts)
        }
        Form::Possibly => {
            let p = basis_true(rest, ws, bs, run);
            lift(ws, bs, false, p, run.x, run.starts)
        }
        Form::Always => {
            let p = basis_false(rest, ws, bs, run);
            lift(ws, bs, true, p, run.x, run.starts)
        }
    }
}
