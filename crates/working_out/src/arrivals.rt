// Arrivals at hops, from the rows of the ports and hops before them.
ghost use Rattle.std.specs.Prelude.{◌≡◌, ◌+◌, ◌<◌, length};
ghost use Rattle.register.specs.Registers.{rows, viewed, room};
ghost use Rattle.working_out.specs.Settling.{Arrives, Advance};

use crate::edits::edit_under;
use crate::gathering::{byte_time, link_under};
use crate::rows::{HopRow, LinkRow, PortRow, Progress};
use definitions::network::Hop;
use register::registers::Register;
use register::views::View;

// What a switch takes between the end of a frame at one port and its arrival at the next, in ns.
const LATENCY: u64 = 16_000;

// The earliest and the latest arrival at a hop, in ns after the release; none where the port before it is not
// worked out.
fn arrival(
    ports: &Register<PortRow>,
    links: &View<LinkRow>,
    hops: &Register<HopRow>,
    hop: Hop,
) -> Option<(u64, u64)>
    ensures { Arrives (rows ports.now) (viewed links.now) (rows hops.now) hop result }
{
    let Some(before) = hop.after else {
        return Some((0, 0));
    };
    let port = ports
        .get(before)
        .filter(|row| row.progress == Progress::WorkedOut)?;
    let row = hops.get((hop.link, before))?;
    let shortest = u64::from(link_under(links, hop.link).shortest) * byte_time(&port.port);
    // a length of 16 bits, at most 800 ns for each byte: the plain sum fits
    let earliest = row.earliest.saturating_add(shortest + LATENCY);
    let latest = row
        .latest
        .saturating_add(port.backlog.saturating_add(LATENCY));
    Some((earliest, latest))
}

// Passes the hop at a place: writes its arrivals, or has its port wait where the port before is not worked out.
fn pass(
    ports: &mut Register<PortRow>,
    links: &View<LinkRow>,
    hops: &mut Register<HopRow>,
    place: usize,
)
    ensures ports_room { room ports.new ≡ room ports.old }
    ensures hops_room { room hops.new ≡ room hops.old }
    ensures same_count { length (rows hops.new) ≡ length (rows hops.old) }
    ensures advances { place < length (rows hops.old) → Advance ports.old links.now hops.old ports.new hops.new place (place + 1) }
{
    let Some(row) = hops.at(place) else {
        return;
    };
    match arrival(ports, links, hops, row.hop) {
        Some((earliest, latest)) => {
            let arrived = HopRow {
                hop: row.hop,
                earliest,
                latest,
            };
            let _ = hops.replace(place, arrived);
        }
        None => edit_under(ports, row.hop.port, |port| match port.progress {
            Progress::Open => port.at(Progress::Waiting),
            _ => port,
        }),
    }
}

// Passes every hop: writes the arrivals at all hops whose ports before are worked out, and has the ports of the
// others wait.
pub(crate) fn advance(
    ports: &mut Register<PortRow>,
    links: &View<LinkRow>,
    hops: &mut Register<HopRow>,
)
    ensures ports_room { room ports.new ≡ room ports.old }
    ensures hops_room { room hops.new ≡ room hops.old }
    ensures same_count { length (rows hops.new) ≡ length (rows hops.old) }
    ensures advances { Advance ports.old links.now hops.old ports.new hops.new 0 (length (rows hops.old)) }
{
    // by place: the rows change on the way, so that no iterator over them can be held
    for place in 0..hops.count() {
        pass(ports, links, hops, place);
    }
}
