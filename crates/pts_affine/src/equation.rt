//! Equations of two unknown positions, and their least solutions.

ghost use Rattle.std.specs.Prelude.{◌≡◌, ℕ, ◌+◌, ◌-◌, ◌*◌, ◌<◌, ◌≤◌, ◌↔◌, MatchOption, false};
ghost use Rattle.pts_affine.specs.Equations.{HasPartner, InSpan, IsSmall, Solves, place};
ghost use Rattle.pts_affine.specs.Lines.{IsLeast};

use crate::root::least_root;
use crate::span::Span;

// `a * p + u = b * q + v` for p below `n` and q below `m`. Where `after` is set, p is to stand before q, and `turned` says
// that q counts from the end.
#[derive(Clone, Copy, Debug, PartialEq, Eq)]
pub struct Equation {
    pub a: u64,
    pub u: u64,
    pub n: u64,
    pub b: u64,
    pub v: u64,
    pub m: u64,
    pub after: bool,
    pub turned: bool,
}

impl Equation {
    // The position of the second line for which q stands.
    pub fn place(self, q: u64) -> u64
        requires { q < self.m }
        ensures { result ≡ place self q }
    {
        if self.turned { self.m - 1 - q } else { q }
    }
}

// The least solution, by p and then by q.
pub fn least_pair(e: Equation) -> Option<(u64, u64)>
    requires small { IsSmall e }
    requires straight { e.b ≡ 0 → e.turned ≡ false }
    ensures { MatchOption result ((p q : ℕ) → ¬ Solves e p q) (λ pair. IsLeast (Solves e) pair.0 pair.1) }
{
    if e.b == 0 {
        least_level(e)
    } else {
        least_slanted(e)
    }
}

// The least solution where q does not matter.
fn least_level(e: Equation) -> Option<(u64, u64)>
    requires small { IsSmall e }
    requires level { e.b ≡ 0 }
    requires straight { e.turned ≡ false }
    ensures { MatchOption result ((p q : ℕ) → ¬ Solves e p q) (λ pair. IsLeast (Solves e) pair.0 pair.1) }
{
    let end = if e.after { e.n.min(e.m - 1) } else { e.n };
    let span = Span { low: 0, end }
        .restrict(0, e.v, e.a, e.u)
        .restrict(e.a, e.u, 0, e.v);
    if span.low >= span.end {
        return None;
    }
    Some((span.low, if e.after { span.low + 1 } else { 0 }))
}

// The least solution where each p has at most one q.
fn least_slanted(e: Equation) -> Option<(u64, u64)>
    requires small { IsSmall e }
    requires slanted { 0 < e.b }
    ensures { MatchOption result ((p q : ℕ) → ¬ Solves e p q) (λ pair. IsLeast (Solves e) pair.0 pair.1) }
{
    let span = partners(e);
    if span.low >= span.end {
        return None;
    }
    let gap = e.a * span.low + e.u - e.v;
    let p = span.low + least_root(e.a, gap, e.b)?;
    if p >= span.end {
        return None;
    }
    Some((p, (e.a * p + e.u - e.v) / e.b))
}

// The positions p for which q, as the equation gives it, lies below `m` and in the order that is asked for.
fn partners(e: Equation) -> Span
    requires { IsSmall e }
    ensures { (p : ℕ) → InSpan result p ↔ HasPartner e p }
{
    let span = Span { low: 0, end: e.n }
        .restrict(0, e.v, e.a, e.u)
        .restrict(e.a, e.u, 0, e.b * (e.m - 1) + e.v);
    match (e.after, e.turned) {
        (false, _) => span,
        (true, false) => span.restrict(e.b, e.v + 1, e.a, e.u),
        (true, true) => span.restrict(e.a + e.b, e.u + 2 * e.b, 0, e.b * e.m + e.v),
    }
}
