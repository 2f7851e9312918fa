//! Where a run stands.

use crate::store::Store;
use jz_runs::MemMap;

/// Where a run stands: what variables and cells have, and the valid bytes of memory.
#[derive(Drop)]
pub struct State {
    pub store: Store,
    pub memory: MemMap,
}
