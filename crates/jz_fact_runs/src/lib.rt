//! Facts and alarms along the runs of an expanded function: where no alarm is, no run is stuck.
#![tactic(auto)]

mod laws;
