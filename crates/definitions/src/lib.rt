// The types that cross the layers of Yewspanner, and in specs/ what everything means.
#![tactic(auto)]

pub mod loads;
pub mod network;
pub mod refusals;
