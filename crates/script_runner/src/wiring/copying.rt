// Wirings of the same value.
use crate::wiring::Wiring;
use interleave_map::line_map::LineMap;
use same_values::CopyValue;
use std::alloc::{AllocError, Global};

impl<'m, M: LineMap> CopyValue for Wiring<'m, M> {
    // It takes no memory.
    fn copy(&self, _alloc: Global) -> Result<Self, AllocError> {
        Ok(Wiring {
            lines_map: self.lines_map,
            xor_map: self.xor_map,
            profile: self.profile,
            costs: self.costs,
            keeps_commands: self.keeps_commands,
        })
    }
}
