//! The shape of all kernels, once for those that fold and once for those that fill: eight places at once, and then
//! the rest one by one.

ghost use Rattle.std.specs.Prelude.{◌≡◌, ℕ, List, [], ◌∷◌, ◌++◌, ◌+◌, ◌<◌, ◌≤◌, length, take, drop, fold};
ghost use Rattle.std.specs.Simd.Lanes.{chunk};

/// What folds the items of a slice one by one.
pub(crate) trait Stepping<T> {
    type Value: Copy;

    /// What all calls ask of it.
    ghost condition: { Self → Type 0 };

    /// What one more item makes of a value.
    ghost step: { Self → Self.Value → T → Self.Value };

    fn one(&self, value: Self::Value, item: &T) -> Self::Value
        requires { condition self.now }
        ensures { result ≡ step self.now value item.now };
}

/// What folds them eight at once, too.
pub(crate) trait Folding<T>: Stepping<T> {
    type Lanes: Copy;

    /// Folding over the lanes is folding over these items.
    ghost stand_for: { Self → Self.Lanes → List T → Type 0 };

    fn load(&self, items: &[T], at: usize) -> Self::Lanes
        requires condition { Self.condition self.now }
        requires within { at + 8 ≤ length items.now }
        ensures { stand_for self.now result (chunk at 8 items.now) };

    fn join(&self, lanes: Self::Lanes, more: Self::Lanes) -> Self::Lanes
        requires { Self.condition self.now }
        ensures { (xs ys : List T) → stand_for self.now lanes xs → stand_for self.now more ys → stand_for self.now result (xs ++ ys) };

    fn total(&self, value: Self::Value, lanes: Self::Lanes) -> Self::Value
        requires { Self.condition self.now }
        ensures { (xs : List T) → stand_for self.now lanes xs → result ≡ fold (Self.step self.now) value xs };
}

pub(crate) fn fold_strips<T, K: Folding<T>>(kernel: &K, value: K::Value, items: &[T]) -> K::Value
    requires { K.condition kernel.now }
    ensures { result ≡ fold (K.step kernel.now) value items.now }
{
    if items.len() < 8 {
        return fold_rest(kernel, value, items);
    }
    let mut lanes = kernel.load(items, 0);
    let mut at = 8;
    while items.len() - at >= 8 {
        lanes = kernel.join(lanes, kernel.load(items, at));
        at += 8;
    }
    fold_rest(kernel, kernel.total(value, lanes), &items[at..])
}

pub(crate) fn fold_rest<T, K: Stepping<T>>(kernel: &K, value: K::Value, items: &[T]) -> K::Value
    requires { K.condition kernel.now }
    ensures { result ≡ fold (K.step kernel.now) value items.now }
{
    let mut value = value;
    for item in items {
        value = kernel.one(value, item);
    }
    value
}

/// What gives a number or a truth for each place, one by one or eight at once.
pub(crate) trait Filling {
    type Out: Copy;

    /// What all calls ask of it.
    ghost condition: { Self → Type 0 };

    /// How many places there are.
    ghost places: { Self → ℕ };

    /// What all places get.
    ghost answer: { Self → List Self.Out };

    fn eight(&self, at: usize, out: &mut [Self::Out])
        requires condition { condition self.now }
        requires within { at + 8 ≤ places self.now }
        requires room { length out.old ≡ 8 }
        ensures { out.new ≡ chunk at 8 (answer self.now) };

    fn one(&self, at: usize) -> Self::Out
        requires condition { condition self.now }
        requires within { at < places self.now }
        ensures { chunk at 1 (answer self.now) ≡ result ∷ [] };
}

pub(crate) fn fill_strips<K: Filling>(kernel: &K, out: &mut [K::Out])
    requires condition { K.condition kernel.now }
    requires lengths { K.places kernel.now ≡ length out.old }
    requires answers { length (K.answer kernel.now) ≡ length out.old }
    ensures { out.new ≡ K.answer kernel.now }
{
    let mut at = 0;
    while out.len() - at >= 8 {
        kernel.eight(at, &mut out[at..at + 8]);
        at += 8;
    }
    while at < out.len() {
        out[at] = kernel.one(at);
        at += 1;
    }
}
