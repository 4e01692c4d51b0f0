//! Cells at places that are numbers themselves.

ghost use Rattle.std.specs.Prelude.{◌≡◌, length, map, nat_lt};
ghost use Rattle.pts_lanes.specs.Kernels.{cell_at};

/// At each j the cell of `xs` at `at[j]`, with `found[j]` true, and 0 and false where `xs` has no such cell.
pub fn gather_u64(xs: &[u64], at: &[u64], out: &mut [u64], found: &mut [bool])
    requires lengths { (length at.now ≡ length out.old) × (length at.now ≡ length found.old) }
    ensures cells { out.new ≡ map (cell_at xs.now) at.now }
    ensures found { found.new ≡ map (λ place. nat_lt place (length xs.now)) at.now }
{
    for i in 0..at.len() {
        let place = at[i] as usize;
        found[i] = place < xs.len();
        out[i] = if place < xs.len() { xs[place] } else { 0 };
    }
}
