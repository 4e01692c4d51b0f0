//! Runs of positions, and linear bounds on them.

ghost use Rattle.std.specs.Prelude.{ℕ, ◌+◌, ◌*◌, ◌^◌, ◌<◌, ◌≤◌, ◌↔◌};
ghost use Rattle.pts_affine.specs.Equations.{InSpan};

// The positions from `low` up to `end`.
#[derive(Clone, Copy, Debug, PartialEq, Eq)]
pub struct Span {
    pub low: u64,
    pub end: u64,
}

impl Span {
    // The positions p of the span for which `a * p + b <= c * p + d`.
    pub fn restrict(self, a: u64, b: u64, c: u64, d: u64) -> Span
        requires { d < 2 ^ 63 }
        ensures { (p : ℕ) → InSpan result p ↔ (InSpan self p × (a * p + b ≤ c * p + d)) }
    {
        if a > c {
            if b > d {
                Span { end: 0, ..self }
            } else {
                Span {
                    end: self.end.min((d - b) / (a - c) + 1),
                    ..self
                }
            }
        } else if b <= d {
            self
        } else if a == c {
            Span { end: 0, ..self }
        } else {
            Span {
                low: self.low.max((b - d).div_ceil(c - a)),
                ..self
            }
        }
    }
}
