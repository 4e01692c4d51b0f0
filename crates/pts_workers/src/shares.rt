//! What the workers of a call leave.

ghost use Rattle.std.specs.Prelude.{◌≡◌, ◌≤◌, [], ◌∷◌, ◌++◌, length, IfOk, OnOk};

use pts_boards::Grouping;
use sqlite_items::Items;
use std::alloc::{AllocError, Global};

/// The chunks that workers drew and what their states came to, in the order of the workers.
#[derive(Drop)]
pub struct Shares<S> {
    /// The chunks of each worker that drew one.
    pub grouping: Grouping,

    /// The states of these workers.
    pub states: Items<S>,

    /// The states of the workers that drew nothing.
    pub idle: Items<S>,
}

impl<S: Drop> Shares<S> {
    pub(crate) fn new(alloc: Global) -> Shares<S>
        ensures groups { result.grouping.groups ≡ [] }
        ensures states { result.states ≡ [] }
        ensures idle { result.idle ≡ [] }
    {
        Shares {
            grouping: Grouping {
                groups: Items::new(alloc),
            },
            states: Items::new(alloc),
            idle: Items::new(alloc),
        }
    }

    /// Adds what one worker drew, and its state.
    pub(crate) fn add(&mut self, numbers: Items<u32>, state: S) -> Result<(), AllocError>
        ensures groups { 1 ≤ length numbers → OnOk result (self.new.grouping.groups ≡ self.old.grouping.groups ++ numbers ∷ []) }
        ensures states { 1 ≤ length numbers → OnOk result (self.new.states ≡ self.old.states ++ state ∷ []) }
        ensures same_idle { 1 ≤ length numbers → OnOk result (self.new.idle ≡ self.old.idle) }
        ensures same_groups { numbers ≡ [] → OnOk result (self.new.grouping.groups ≡ self.old.grouping.groups) }
        ensures same_states { numbers ≡ [] → OnOk result (self.new.states ≡ self.old.states) }
        ensures idle { numbers ≡ [] → OnOk result (self.new.idle ≡ self.old.idle ++ state ∷ []) }
    {
        if numbers.is_empty() {
            return self.idle.push(state);
        }
        self.grouping.groups.push(numbers)?;
        self.states.push(state)
    }

    /// Adds what later workers leave.
    pub(crate) fn append(&mut self, more: Shares<S>) -> Result<(), AllocError>
        ensures groups { OnOk result (self.new.grouping.groups ≡ self.old.grouping.groups ++ more.grouping.groups) }
        ensures states { OnOk result (self.new.states ≡ self.old.states ++ more.states) }
        ensures idle { OnOk result (self.new.idle ≡ self.old.idle ++ more.idle) }
    {
        let Shares {
            grouping,
            states,
            idle,
        } = more;
        let Grouping { groups } = grouping;
        self.grouping.groups.append(groups)?;
        self.states.append(states)?;
        self.idle.append(idle)
    }
}
