//! Stores, overlays and writes go between threads.

use crate::{Overlay, Store, Writes};

fn is_shared<T: Send + Sync>(_value: &T) {}

/// All three may be sent to threads and read by several at once.
pub fn stores_are_shared(store: &Store, overlay: &Overlay<'_>, writes: &Writes) {
    is_shared(store);
    is_shared(overlay);
    is_shared(writes);
}
