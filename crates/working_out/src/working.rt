// The working-out itself.
ghost use Rattle.std.specs.Prelude.{◌≡◌, ℕ, List, Some, None, Err, Result, length};
ghost use Rattle.definitions.specs.declared.loads.Load.{Load as LoadRow};
ghost use Rattle.definitions.specs.Network.{Records, WellFormed};
ghost use Rattle.register.specs.Registers.{rows, viewed, room};
ghost use Rattle.register.specs.Tables.{rows as table_rows, Kept};
ghost use Rattle.working_out.specs.Keys.{number_before, place_before, port_key, hop_key};
ghost use Rattle.working_out.specs.declared.rows.LinkRow.{LinkRow as LinkRowIs};
ghost use Rattle.working_out.specs.Rows.{net, AtRest};
ghost use Rattle.working_out.specs.Settling.{Setting, Stuck};
ghost use Rattle.working_out.specs.Rings.{Remarked, RingTold};
ghost use Rattle.definitions.specs.declared.refusals.Refusal.{Refusal as RefusalIs};
ghost use Rattle.definitions.specs.declared.refusals.Refusal.TheVariants.{NoFigures};
ghost use Rattle.working_out.specs.Works.{Cleared, Zeroed, Judged, InOrder, Works};

use crate::edits::{edit_all, edit_rows};
use crate::gathering::first_overloaded;
use crate::rings::first_in_ring;
use crate::rows::{HopRow, LinkRow, PortRow, Progress};
use crate::settling::{first_with, settle_all};
use definitions::loads::Load;
use definitions::refusals::Refusal;
use methods::Method;
use register::registers::Register;
use register::tables::Table;
use register::views::View;

// Takes all figures back to zero.
fn clear_figures(ports: &mut Register<PortRow>, hops: &mut Register<HopRow>)
    ensures { Cleared ports.old hops.old ports.new hops.new }
{
    edit_all(ports, |row| PortRow::new(row.port));
    edit_all(hops, |row| HopRow::new(row.hop));
}

// The lowest port that feeds itself. Only where a port waits can there be one.
fn ring_of(ports: &mut Register<PortRow>, hops: &[HopRow]) -> Option<u8>
    ensures remarked { Remarked ports.old ports.new }
    ensures told { (r : Records) (worth : List LoadRow → ℕ) (ls : List LinkRowIs) → Setting r worth → Stuck r worth (rows ports.old) ls hops.now → RingTold r result }
{
    first_with(ports.all(), Progress::Waiting)?;
    first_in_ring(ports, hops)
}

// Why not every port was worked out, where nothing more can be: a ring, or a figure past the limit.
fn judge(ports: &mut Register<PortRow>, hops: &[HopRow]) -> Result<(), Refusal>
    ensures same_room { room ports.new ≡ room ports.old }
    ensures judged { (r : Records) (worth : List LoadRow → ℕ) (ls : List LinkRowIs) → Setting r worth → Stuck r worth (rows ports.old) ls hops.now → Judged r worth (rows ports.new) ls hops.now result }
{
    let past = first_with(ports.all(), Progress::PastLimit);
    if let Some(port) = ring_of(ports, hops) {
        return Err(Refusal::PortInRing { port });
    }
    match past {
        Some(port) => Err(Refusal::FigurePastLimit { port }),
        None => Ok(()),
    }
}

// Works out the figures of the network in the registers by the method, over a load table with a place for every hop.
// Every refusal leaves all figures zero, and the marks of the working-out are at rest when it ends.
#[tactic(auto, using(crate::proofs::Concluding::works_short, crate::proofs::Concluding::works_overloaded))]
pub fn work_out_registers<M: Method>(
    ports: &mut Register<PortRow>,
    links: &View<LinkRow>,
    hops: &mut Register<HopRow>,
    method: &M,
    loads: &mut [Load],
) -> Result<(), Refusal>
    ensures load_places { length loads.new ≡ length loads.old }
    ensures ports_room { room ports.new ≡ room ports.old }
    ensures hops_room { room hops.new ≡ room hops.old }
    ensures rests { AtRest (rows ports.new) }
    ensures works { WellFormed (net (rows ports.old) (viewed links.now) (rows hops.old)) → Works (net (rows ports.old) (viewed links.now) (rows hops.old)) (M.Method.worth method.now) (length loads.old) (rows ports.new) (viewed links.now) (rows hops.new) result }
{
    clear_figures(ports, hops);
    if loads.len() < hops.count() {
        return Err(Refusal::LoadTableShort);
    }
    if let Some(port) = first_overloaded(ports.all(), links, hops.all(), loads) {
        return Err(Refusal::PortOverloaded { port });
    }
    settle_all(ports, links, hops, method, loads);
    let judged = judge(ports, hops.all());
    match judged {
        Ok(()) => edit_all(ports, PortRow::at_rest),
        Err(_) => clear_figures(ports, hops),
    }
    judged
}

// Works out tables whose keys ascend. Where they do not, there is no answer, and the rows are as they were.
#[tactic(auto, using(crate::proofs::Tabled::ports_in_order, crate::proofs::Tabled::links_in_order, crate::proofs::Tabled::hops_in_order))]
fn work_in_order<M: Method>(
    ports: &mut Table<PortRow>,
    links: &Table<LinkRow>,
    hops: &mut Table<HopRow>,
    method: &M,
    loads: &mut [Load],
) -> Option<Result<(), Refusal>>
    ensures load_places { length loads.new ≡ length loads.old }
    ensures ports_kept { Kept number_before port_key ports.old ports.new }
    ensures hops_kept { Kept place_before hop_key hops.old hops.new }
    ensures out_of_order { result ≡ None → ¬ (InOrder ports.old links.now hops.old) × (table_rows ports.new ≡ table_rows ports.old) × (table_rows hops.new ≡ table_rows hops.old) }
    ensures in_order { ¬ (result ≡ None) → InOrder ports.old links.now hops.old × AtRest (table_rows ports.new) }
    ensures works { (a : Result (Unit {0}) RefusalIs) → result ≡ Some a → WellFormed (net (table_rows ports.old) (table_rows links.now) (table_rows hops.old)) → Works (net (table_rows ports.old) (table_rows links.now) (table_rows hops.old)) (M.Method.worth method.now) (length loads.old) (table_rows ports.new) (table_rows links.now) (table_rows hops.new) a }
{
    let view = View::of(links.all())?;
    let mut port_register = Register::take(ports)?;
    let Some(mut hop_register) = Register::take(hops) else {
        port_register.give_back(ports);
        return None;
    };
    let worked = work_out_registers(&mut port_register, &view, &mut hop_register, method, loads);
    port_register.give_back(ports);
    hop_register.give_back(hops);
    Some(worked)
}

// As `work_out_registers`, over tables, which may hold anything: where the keys of a table do not ascend, so that the tables
// hold no network, it is refused as one without figures. Every refusal leaves all figures zero.
pub fn work_out<M: Method>(
    ports: &mut Table<PortRow>,
    links: &Table<LinkRow>,
    hops: &mut Table<HopRow>,
    method: &M,
    loads: &mut [Load],
) -> Result<(), Refusal>
    ensures load_places { length loads.new ≡ length loads.old }
    ensures ports_kept { Kept number_before port_key ports.old ports.new }
    ensures hops_kept { Kept place_before hop_key hops.old hops.new }
    ensures rests { AtRest (table_rows ports.new) }
    ensures out_of_order { ¬ (InOrder ports.old links.now hops.old) → (result ≡ Err NoFigures) × Zeroed ports.old hops.old ports.new hops.new }
    ensures works { WellFormed (net (table_rows ports.old) (table_rows links.now) (table_rows hops.old)) → Works (net (table_rows ports.old) (table_rows links.now) (table_rows hops.old)) (M.Method.worth method.now) (length loads.old) (table_rows ports.new) (table_rows links.now) (table_rows hops.new) result }
{
    if let Some(worked) = work_in_order(ports, links, hops, method, loads) {
        return worked;
    }
    edit_rows(ports, |row| PortRow::new(row.port));
    edit_rows(hops, |row| HopRow::new(row.hop));
    Err(Refusal::NoFigures)
}
