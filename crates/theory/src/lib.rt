// The laws over the definitions. Each is the contract of a function that does nothing:
// the crate is built only when the law is proved.
#![tactic(auto)]

pub mod network_laws;
pub mod run_laws;
pub mod sample_laws;
pub mod text_laws;
pub mod traffic_laws;
pub mod window_laws;
