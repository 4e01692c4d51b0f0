//! The least solution of a linear congruence.

ghost use Rattle.std.specs.Prelude.{◌≡◌, ◌≢◌, ℕ, ◌+◌, ◌*◌, ◌^◌, ◌<◌, ◌≤◌, IfSome, MatchOption};
ghost use Rattle.pts_affine.specs.Equations.{IsLeastRoot};

// The least p for which `b` divides `a * p + w`, by Euclid's algorithm on `a` and `b`.
pub fn least_root(a: u64, w: u64, b: u64) -> Option<u64>
    requires positive { 0 < b }
    requires small { b ≤ 2 ^ 20 }
    ensures root { MatchOption result ((p q : ℕ) → a * p + w ≢ b * q) (IsLeastRoot a w b) }
    ensures below { IfSome result (λ p. p < b) }
{
    let rest = a % b;
    let over = w % b;
    if over == 0 {
        return Some(0);
    }
    if rest == 0 {
        return None;
    }
    // The multiple of `b` above `rest * p + over` is q + 1 times `b`, so `rest` divides `b * q + lack`.
    let lack = b - over;
    let q = least_root(b, lack, rest)?;
    Some((b * q + lack) / rest)
}
