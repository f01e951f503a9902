// Working out the figures of a network, over the tables of its ports, virtual links and hops. Tables, method and loads are
// passed one by one and not as one struct: so a signature says what a step may change, the links never and the hops only
// where they are passed or cleared. That there is a place for the load of every hop is a fact of two of them, and so a `requires`: a struct of
// both would be taken apart again for each step that changes the hops or fills the loads. That a table has as many places as
// before (`room`) is a fact of two states, which no type holds; and what a step makes of the figures is said for all records
// and worths in a `Setting`, which are no values of the program.
#![tactic(auto)]

mod arrivals;
mod edits;
mod figuring;
mod gathering;
mod rings;
pub mod rows;
mod settling;
pub mod working;
