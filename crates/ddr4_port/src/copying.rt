// Ports of the same value.
use crate::Ddr4Port;
use interleave_map::line_map::LineMap;
use same_values::CopyValue;
use std::alloc::{AllocError, Global};

impl<'m, M: LineMap> CopyValue for Ddr4Port<'m, M> {
    fn copy(&self, alloc: Global) -> Result<Self, AllocError> {
        Ok(Ddr4Port {
            channel: Box::new(alloc, self.channel.copy(alloc)?)?,
            map: self.map,
            stage: self.stage,
        })
    }
}
