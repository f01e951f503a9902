// Rings: the lowest port that feeds itself. The ports that a port feeds are marked in their rows.
ghost use Rattle.std.specs.Prelude.{[], ◌∷◌, ◌↔◌, IsTrue};
ghost use Rattle.register.specs.Registers.{rows};
ghost use Rattle.working_out.specs.Rings.{Marked, Reached, Marks, Spreads, SpreadsAll, FeedsItself, FindsRing};

use crate::edits::{edit_all, edit_under};
use crate::rows::{HopRow, PortRow};
use register::registers::Register;

// Whether the port is marked.
fn is_marked(ports: &Register<PortRow>, port: u8) -> bool
    ensures { IsTrue result ↔ Marked (rows ports.now) port }
{
    ports.get(port).is_some_and(|row| row.fed)
}

// Marks the port, and tells whether it was there without a mark.
#[tactic(auto, using(crate::proofs::Tabled::one_row))]
fn mark_port(ports: &mut Register<PortRow>, port: u8) -> bool
    ensures { Marks port ports.old ports.new result }
{
    if !ports.get(port).is_some_and(|row| !row.fed) {
        return false;
    }
    edit_under(ports, port, |row| row.marked(true));
    true
}

// Whether the port is `from`, or marked.
fn is_reached(ports: &Register<PortRow>, from: u8, port: u8) -> bool
    ensures { IsTrue result ↔ Reached from (rows ports.now) port }
{
    port == from || is_marked(ports, port)
}

// Marks the port of the hop if it comes after `from` or after a port that is marked.
fn feed_next(ports: &mut Register<PortRow>, row: &HopRow, from: u8) -> bool
    ensures { Spreads (row.now ∷ []) from ports.old ports.new result }
{
    match row.hop.after {
        Some(before) if is_reached(ports, from, before) => mark_port(ports, row.hop.port),
        _ => false,
    }
}

// Marks the ports that come next after `from` and the marked ports, and tells whether any was added.
fn spread(ports: &mut Register<PortRow>, hops: &[HopRow], from: u8) -> bool
    ensures { Spreads hops.now from ports.old ports.new result }
{
    let mut added = false;
    for row in hops {
        added |= feed_next(ports, row, from);
    }
    added
}

// Spreads the marks from `from` until nothing is added: at most once for every port. Rounds of `settle_all` end alike; one loop
// for both would take the step as a closure over all tables, and be no plainer.
#[tactic(auto, using(crate::proofs::RingMarks::few_unmarked))]
fn spread_all(ports: &mut Register<PortRow>, hops: &[HopRow], from: u8)
    ensures { SpreadsAll hops.now from ports.old ports.new }
{
    for _ in 0..ports.count() {
        if !spread(ports, hops, from) {
            return;
        }
    }
}

// Whether the port feeds itself.
fn feeds_itself(ports: &mut Register<PortRow>, hops: &[HopRow], port: u8) -> bool
    ensures { FeedsItself hops.now port ports.old ports.new result }
{
    edit_all(ports, |row| row.marked(false));
    spread_all(ports, hops, port);
    is_marked(ports, port)
}

// The lowest port that feeds itself.
#[tactic(auto, using(crate::proofs::RingFound::ring_here, crate::proofs::RingFound::none_here))]
pub(crate) fn first_in_ring(ports: &mut Register<PortRow>, hops: &[HopRow]) -> Option<u8>
    ensures { FindsRing hops.now ports.old ports.new result }
{
    // by place: the rows change on the way, so that no iterator over them can be held
    for place in 0..ports.count() {
        let row = ports.at(place)?;
        if feeds_itself(ports, hops, row.port.number) {
            return Some(row.port.number);
        }
    }
    None
}
