//! The memory of a machine behind a bus.

use jz_leak::MemMap;
use x64_insn::{Bus, Size};

/// The memory of a machine, as an instruction sees it.
#[derive(Drop)]
pub struct MemBus {
    pub map: MemMap,
}

impl Bus for MemBus {
    ghost bytes = { λ b. b.map };

    fn load(&self, addr: u64, size: Size) -> Option<u64> {
        self.map.load(addr, size)
    }

    fn store(&mut self, addr: u64, size: Size, value: u64) -> bool {
        self.map.store(addr, size, value)
    }
}
