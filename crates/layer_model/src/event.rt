//! An event.
ghost use Rattle.std.specs.Prelude.{◌≡◌, ◌≤◌};

use mark_base::{ArgList, TypeId};
use std::alloc::AllocError;

/// An event: a type, the number of the text-bound annotation that states it, and its arguments in
/// their order (brat standoff manual, "Event annotations").
#[derive(Debug, Drop)]
pub struct Event {
    pub kind: TypeId,
    pub trigger: u32,
    pub args: ArgList,
    ghost within: { trigger ≤ 999999999 },
}

impl Clone for Event {
    ghost is_clone = { λ before after. after ≡ before };

    fn clone(&self) -> Result<Self, AllocError> {
        let args = self.args.clone()?;
        Ok(Event {
            kind: self.kind,
            trigger: self.trigger,
            args,
        })
    }
}
