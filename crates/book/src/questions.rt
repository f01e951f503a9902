// What a book tells of its figures while they stand. A question stands twice, as a call that changes the book does: the private
// function has its outcome, the public one adds run and promise.
ghost use Rattle.std.specs.Prelude.{◌≡◌};
ghost use Rattle.definitions.specs.Calls.{port_figures, hop_figures, delay_of};
ghost use Rattle.register.specs.Registers.{rows};
ghost use Rattle.working_out.specs.Works.{refused_by};
ghost use Rattle.book.specs.Books.{Adds};
ghost use Rattle.book.specs.Questions.{port_row, row_departure, link_ground, told_port, told_hop, told_delay, port_answer, hop_answer, delay_answer, PortPromised, HopPromised, DelayPromised};

use crate::books::Book;
use definitions::refusals::Refusal;
use folds::{Measure, largest};
use register::registers::Register;
use working_out::rows::{HopRow, PortRow};

// The latest end of a frame at a hop, after its release: its latest arrival and the backlog of its port.
#[derive(Drop)]
struct Departure<'b, 'a> {
    ports: &'b Register<'a, PortRow>,
}

impl<'b, 'a> Measure for Departure<'b, 'a> {
    type Item = HopRow;

    ghost figure = { λ m row. row_departure (rows m.ports.now) row };

    fn of(&self, row: &HopRow) -> Option<u64> {
        row.latest.checked_add(backlog_at(self.ports, row.hop.port))
    }
}

// The backlog of a port, 0 where there is no such port.
#[tactic(auto, using(crate::proofs::Showing::backlog_is, crate::proofs::Showing::no_backlog))]
fn backlog_at(ports: &Register<PortRow>, number: u8) -> u64
    ensures { result ≡ (port_row (rows ports.now) number).backlog }
{
    ports.get(number).map_or(0, |row| row.backlog)
}

impl<'a> Book<'a> {
    // The worst backlog of a port, in ns, and its queue depth, in frames.
    #[tactic(auto, using(crate::proofs::Asking::port_adds))]
    pub fn port_figures(&self, port: u8) -> Result<(u64, u64), Refusal>
        ensures outcome { result ≡ told_port self.now port }
        ensures run { Adds (port_figures port) (port_answer result) self.now self.now }
        ensures promise { PortPromised self.now port result }
    {
        self.tell_port(port)
    }

    #[tactic(auto, using(crate::proofs::Showing::port_is_told, crate::proofs::Showing::port_is_unknown))]
    fn tell_port(&self, port: u8) -> Result<(u64, u64), Refusal>
        ensures { result ≡ told_port self.now port }
    {
        if !self.standing {
            return Err(Refusal::NoFigures);
        }
        let row = self.ports.get(port).ok_or(Refusal::PortUnknown)?;
        Ok((row.backlog, row.depth))
    }

    // The earliest and the latest arrival of a frame at a hop and its latest departure, in ns after its release.
    #[tactic(auto, using(crate::proofs::Asking::hop_adds))]
    pub fn hop_figures(&self, link: u16, port: u8) -> Result<(u64, u64, u64), Refusal>
        ensures outcome { result ≡ told_hop self.now link port }
        ensures run { Adds (hop_figures link port) (hop_answer result) self.now self.now }
        ensures promise { HopPromised self.now link port result }
    {
        self.tell_hop(link, port)
    }

    #[tactic(auto, using(crate::proofs::Hops::fit_of, crate::proofs::Showing::link_is_known, crate::proofs::Showing::hop_without_port, crate::proofs::Showing::no_hop_is_there, crate::proofs::Showing::hop_is_told))]
    fn tell_hop(&self, link: u16, port: u8) -> Result<(u64, u64, u64), Refusal>
        ensures { result ≡ told_hop self.now link port }
    {
        self.may_ask_of(link)?;
        let at = self.ports.get(port).ok_or(Refusal::PortUnknown)?;
        let row = self.hops.get((link, port)).ok_or(Refusal::NoHopThere)?;
        Ok((
            row.earliest,
            row.latest,
            row.latest.saturating_add(at.backlog),
        ))
    }

    // The largest departure of a link's hops, in ns after the release of a frame.
    #[tactic(auto, using(crate::proofs::Asking::delay_adds))]
    pub fn delay(&self, link: u16) -> Result<u64, Refusal>
        ensures outcome { result ≡ told_delay self.now link }
        ensures run { Adds (delay_of link) (delay_answer result) self.now self.now }
        ensures promise { DelayPromised self.now link result }
    {
        self.tell_delay(link)
    }

    #[tactic(auto, using(crate::proofs::Hops::fit_of, crate::proofs::Showing::link_is_known, crate::proofs::Showing::no_hops))]
    fn tell_delay(&self, link: u16) -> Result<u64, Refusal>
        ensures { result ≡ told_delay self.now link }
    {
        self.may_ask_of(link)?;
        let hops = &self.hops.all()[self.run_of(link)];
        if hops.is_empty() {
            return Err(Refusal::NoHops);
        }
        let departure = Departure { ports: &self.ports };
        // while figures stand, every departure fits
        Ok(largest(&departure, hops).unwrap_or(u64::MAX))
    }

    // The first ground that a question about a link meets: no figures stand, or the link is unknown.
    fn may_ask_of(&self, link: u16) -> Result<(), Refusal>
        ensures { result ≡ refused_by (link_ground self.now link) }
    {
        if !self.standing {
            Err(Refusal::NoFigures)
        } else if !self.has_link(link) {
            Err(Refusal::LinkUnknown)
        } else {
            Ok(())
        }
    }
}
