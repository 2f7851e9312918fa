//! Two runs of one body side by side, whatever its parts are: where they leak the same they go
//! together, and what goes together behind a pass went together before it. There is no code here.
#![tactic(auto)]
