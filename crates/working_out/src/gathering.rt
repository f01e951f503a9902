// The loads of one port, gathered into a lent table.
ghost use Rattle.std.specs.Prelude.{◌≡◌, ◌≤◌, map, length};
ghost use Rattle.definitions.specs.Network.{byte_time};
ghost use Rattle.register.specs.Registers.{rows, viewed};
ghost use Rattle.working_out.specs.Gathering.{link_under, row_load, Gathers, OverloadedRow, FirstPort};

use crate::rows::{HopRow, LinkRow, PortRow};
use definitions::loads::Load;
use definitions::network::{Port, VirtualLink};
use methods::overload::overloaded;
use register::views::View;

// How long a byte occupies the port, in ns.
pub(crate) fn byte_time(port: &Port) -> u64
    ensures { result ≡ byte_time port.now }
{
    if port.rate == 100 { 80 } else { 800 }
}

// The link of that number, or one of zeros where there is none.
pub(crate) fn link_under(links: &View<LinkRow>, number: u16) -> VirtualLink
    ensures { result ≡ link_under (viewed links.now) number }
{
    links.get(number).unwrap_or_default().link
}

// The load that a hop of the link brings to the port.
fn load_of(port: &Port, link: VirtualLink, row: &HopRow) -> Load
    ensures { result ≡ row_load port.now link row.now }
{
    Load {
        occupancy: u64::from(link.longest) * byte_time(port),
        gap: u64::from(link.gap) * 1_000_000,
        jitter: row.latest.saturating_sub(row.earliest),
    }
}

// Writes the loads of the port from the first place of `loads`, and tells how many there are. The table of loads is lent,
// and only some hops bring a load, so that it is written by place.
pub(crate) fn gather(
    links: &View<LinkRow>,
    hops: &[HopRow],
    port: &Port,
    loads: &mut [Load],
) -> usize
    requires { length hops.now ≤ length loads.old }
    ensures { Gathers (viewed links.now) hops.now port.now loads.new result }
{
    let mut count = 0;
    for row in hops {
        if row.hop.port == port.number {
            loads[count] = load_of(port, link_under(links, row.hop.link), row);
            count += 1;
        }
    }
    count
}

// The lowest port that its loads overload; by a loop: `find` was tried, but inside a closure that writes the loads the check no
// longer knows that they have a place for every hop.
#[tactic(auto, using(crate::proofs::Gathered::first_here))]
pub(crate) fn first_overloaded(
    ports: &[PortRow],
    links: &View<LinkRow>,
    hops: &[HopRow],
    loads: &mut [Load],
) -> Option<u8>
    requires { length hops.now ≤ length loads.old }
    ensures { FirstPort (OverloadedRow (viewed links.now) hops.now) ports.now result }
{
    for row in ports {
        let count = gather(links, hops, &row.port, loads);
        if overloaded(&loads[..count]) {
            return Some(row.port.number);
        }
    }
    None
}
