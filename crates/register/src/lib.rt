// Tables of records over a slice that the caller lends, and registers: tables in which no key stands twice, and keys ascend.
#![tactic(auto)]

pub mod keys;
mod moves;
pub mod ordered;
pub mod registers;
mod searches;
pub mod tables;
#[cfg(test)]
mod tests;
pub mod views;
