// Rounds in which the figures of one port after another are worked out.
ghost use Rattle.std.specs.Prelude.{◌≡◌, ◌≤◌, List, length};
ghost use Rattle.definitions.specs.Network.{Records};
ghost use Rattle.register.specs.Registers.{rows, viewed, room};
ghost use Rattle.working_out.specs.declared.rows.PortRow.{PortRow as Row};
ghost use Rattle.working_out.specs.Gathering.{FirstPort};
ghost use Rattle.working_out.specs.Settling.{Setting, Known, Settles, SettlesFirst, settled_row, Worked, RoundMakes, Stuck};

use crate::arrivals::advance;
use crate::edits::edit_all;
use crate::figuring::figures;
use crate::gathering::gather;
use crate::rows::{HopRow, LinkRow, PortRow, Progress};
use definitions::loads::Load;
use methods::Method;
use register::registers::Register;
use register::views::View;

// Works out the figures of the port at a place, if it is open; tells whether it was.
#[tactic(auto, using(crate::proofs::SettledTable::tried_table))]
fn settle<M: Method>(
    ports: &mut Register<PortRow>,
    links: &View<LinkRow>,
    hops: &[HopRow],
    method: &M,
    loads: &mut [Load],
    place: usize,
) -> bool
    requires { length hops.now ≤ length loads.old }
    ensures same_room { room ports.new ≡ room ports.old }
    ensures settles { (r : Records) → Setting r (M.Method.worth method.now) → Known r (M.Method.worth method.now) (rows ports.old) (viewed links.now) hops.now (length hops.now) → Settles r (M.Method.worth method.now) (viewed links.now) hops.now place (rows ports.old) (rows ports.new) result }
{
    let open = ports.at(place).filter(|row| row.progress == Progress::Open);
    let Some(row) = open else {
        return false;
    };
    let count = gather(links, hops, &row.port, loads);
    let told = figures(method, hops, row.port.number, &loads[..count]);
    let _ = ports.replace(place, tried(row, told));
    true
}

// The row of a port with its figures, or marked where they pass the limit.
fn tried(row: PortRow, figures: Option<(u64, u64)>) -> PortRow
    ensures { result ≡ settled_row row figures }
{
    match figures {
        Some((backlog, depth)) => PortRow {
            backlog,
            depth,
            progress: Progress::WorkedOut,
            ..row
        },
        None => row.at(Progress::PastLimit),
    }
}

// Works out the figures of every open port; tells whether there was one.
fn settle_open<M: Method>(
    ports: &mut Register<PortRow>,
    links: &View<LinkRow>,
    hops: &[HopRow],
    method: &M,
    loads: &mut [Load],
) -> bool
    requires { length hops.now ≤ length loads.old }
    ensures same_room { room ports.new ≡ room ports.old }
    ensures settles { (r : Records) → Setting r (M.Method.worth method.now) → Known r (M.Method.worth method.now) (rows ports.old) (viewed links.now) hops.now (length hops.now) → SettlesFirst r (M.Method.worth method.now) (viewed links.now) hops.now (length (rows ports.old)) (rows ports.old) (rows ports.new) result }
{
    let mut any = false;
    // by place: the rows change on the way, so that no iterator over them can be held
    for place in 0..ports.count() {
        any |= settle(ports, links, hops, method, loads, place);
    }
    any
}

// One round: passes all hops, and works out the figures of every port that does not wait; tells whether there was one.
fn round<M: Method>(
    ports: &mut Register<PortRow>,
    links: &View<LinkRow>,
    hops: &mut Register<HopRow>,
    method: &M,
    loads: &mut [Load],
) -> bool
    requires { length (rows hops.old) ≤ length loads.old }
    ensures ports_room { room ports.new ≡ room ports.old }
    ensures hops_room { room hops.new ≡ room hops.old }
    ensures same_count { length (rows hops.new) ≡ length (rows hops.old) }
    ensures makes { (r : Records) → Setting r (M.Method.worth method.now) → Worked r (M.Method.worth method.now) (rows ports.old) (viewed links.now) (rows hops.old) → RoundMakes r (M.Method.worth method.now) (viewed links.now) (rows ports.old) (rows hops.old) (rows ports.new) (rows hops.new) result }
{
    edit_all(ports, |row| match row.progress {
        Progress::Waiting => row.at(Progress::Open),
        _ => row,
    });
    advance(ports, links, hops);
    settle_open(ports, links, hops.all(), method, loads)
}

// Works out figures in rounds until nothing more can be worked out: at most one round for each port.
#[tactic(auto, using(crate::proofs::Rounds::untried_most))]
pub(crate) fn settle_all<M: Method>(
    ports: &mut Register<PortRow>,
    links: &View<LinkRow>,
    hops: &mut Register<HopRow>,
    method: &M,
    loads: &mut [Load],
)
    requires { length (rows hops.old) ≤ length loads.old }
    ensures ports_room { room ports.new ≡ room ports.old }
    ensures hops_room { room hops.new ≡ room hops.old }
    ensures stuck { (r : Records) → Setting r (M.Method.worth method.now) → Worked r (M.Method.worth method.now) (rows ports.old) (viewed links.now) (rows hops.old) → Stuck r (M.Method.worth method.now) (rows ports.new) (viewed links.now) (rows hops.new) }
{
    for _ in 0..ports.count() {
        if !round(ports, links, hops, method, loads) {
            return;
        }
    }
}

// The first port with this progress.
pub(crate) fn first_with(ports: &[PortRow], progress: Progress) -> Option<u8>
    ensures { FirstPort (λ (x : Row). x.progress ≡ progress) ports.now result }
{
    let row = ports.iter().find(|row| row.progress == progress)?;
    Some(row.port.number)
}
