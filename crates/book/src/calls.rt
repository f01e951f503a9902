// Opening, entering, removing, clearing, and the records by their places.
ghost use Rattle.std.specs.Prelude.{◌≡◌, ◌≤◌, true, false, [], length, None, Ok, MatchOption};
ghost use Rattle.definitions.specs.Entries.{Places, port_entry, link_entry, hop_entry, removal_ground, removed, no_records, rate_known, gap_known, lengths_kept, has_link, has_port, has_hop, has_first_hop};
ghost use Rattle.definitions.specs.Network.{find_port, suits};
ghost use Rattle.std.specs.List.{slice_get};
ghost use Rattle.definitions.specs.Calls.{enter, remove_link, clear, count_ports, count_links, count_hops, port_at, link_at, hop_at, done, count, port_is, link_is, hop_is};
ghost use Rattle.register.specs.Registers.{rows, Starts};
ghost use Rattle.working_out.specs.Keys.{place_before, hop_key};
ghost use Rattle.working_out.specs.Works.{refused_by};
ghost use Rattle.book.specs.Books.{records, places, unfit, Doing, Enters, Made, answer_of, Adds};
ghost use Rattle.book.specs.LinkRuns.{RunEnd};

use crate::books::Book;
use crate::link_runs::{has_first, run_end};
use definitions::network::{Hop, Port, PortKind, VirtualLink};
use definitions::refusals::Refusal;
use register::registers::Register;
use register::tables::NotInserted;
use std::ops::Range;
use working_out::rows::{HopRow, LinkRow, PortRow};

// What a book holds at most, however many places its tables have.
pub const MOST_PORTS: usize = 256;

pub const MOST_LINKS: usize = 4_096;

pub const MOST_HOPS: usize = 16_384;

// A call with several exits stands twice: a private function has its outcome, and the public one around it adds the run, so
// that what a list of calls comes to is proved once and not at each exit.
impl<'a> Book<'a> {
    // An empty book over the tables; it never refuses.
    pub fn open(
        ports: &'a mut [PortRow],
        links: &'a mut [LinkRow],
        hops: &'a mut [HopRow],
    ) -> Book<'a>
        ensures empty { records result ≡ no_records }
        ensures tables { places result ≡ record { ports = length ports.entry.now; links = length links.old; hops = length hops.old } }
        ensures run { Made [] [] result }
    {
        Book {
            ports: Register::open(ports),
            links: Register::open(links),
            hops: Register::open(hops),
            standing: false,
        }
    }

    // Enters a port.
    #[tactic(auto, using(crate::proofs::Adding::port_entry_adds))]
    pub fn enter_port(&mut self, port: Port) -> Result<(), Refusal>
        ensures outcome { Enters (port_entry port) self.old self.new result }
        ensures run { Adds (enter (port_entry port)) (answer_of result) self.old self.new }
    {
        self.add_port(port)
    }

    // The three kinds of records are put in alike; in one function for all, the tests, the limit and both refusals would be
    // arguments, or constants of a trait with an impl for each, which is no shorter.
    #[tactic(auto, using(crate::proofs::Entering::port_present))]
    fn add_port(&mut self, port: Port) -> Result<(), Refusal>
        ensures { Enters (port_entry port) self.old self.new result }
    {
        if !has_known_rate(&port) {
            return Err(Refusal::RateUnknown);
        }
        match self.ports.insert(PortRow::new(port), MOST_PORTS) {
            Ok(()) => {
                self.standing = false;
                Ok(())
            }
            Err(NotInserted::Present) => Err(Refusal::PortPresent),
            Err(NotInserted::Full) => Err(Refusal::PortTableFull),
        }
    }

    // Enters a virtual link.
    #[tactic(auto, using(crate::proofs::Adding::link_entry_adds))]
    pub fn enter_link(&mut self, link: VirtualLink) -> Result<(), Refusal>
        ensures outcome { Enters (link_entry link) self.old self.new result }
        ensures run { Adds (enter (link_entry link)) (answer_of result) self.old self.new }
    {
        self.add_link(link)
    }

    #[tactic(auto, using(crate::proofs::Entering::link_added, crate::proofs::Entering::link_present, crate::proofs::Entering::link_full))]
    fn add_link(&mut self, link: VirtualLink) -> Result<(), Refusal>
        ensures { Enters (link_entry link) self.old self.new result }
    {
        if !has_known_gap(&link) {
            return Err(Refusal::GapUnknown);
        }
        if !keeps_lengths(&link) {
            return Err(Refusal::OutOfRange);
        }
        match self.links.insert(LinkRow { link }, MOST_LINKS) {
            Ok(()) => {
                self.standing = false;
                Ok(())
            }
            Err(NotInserted::Present) => Err(Refusal::LinkPresent),
            Err(NotInserted::Full) => Err(Refusal::LinkTableFull),
        }
    }

    // Enters a hop.
    #[tactic(auto, using(crate::proofs::Adding::hop_entry_adds))]
    pub fn enter_hop(&mut self, hop: Hop) -> Result<(), Refusal>
        ensures outcome { Enters (hop_entry hop) self.old self.new result }
        ensures run { Adds (enter (hop_entry hop)) (answer_of result) self.old self.new }
    {
        self.add_hop(hop)
    }

    #[tactic(auto, using(crate::proofs::Hops::hop_unfit, crate::proofs::Hops::hop_present))]
    fn add_hop(&mut self, hop: Hop) -> Result<(), Refusal>
        ensures { Enters (hop_entry hop) self.old self.new result }
    {
        self.fits(hop)?;
        match self.hops.insert(HopRow::new(hop), MOST_HOPS) {
            Ok(()) => {
                self.standing = false;
                Ok(())
            }
            // never of a hop that fits
            Err(NotInserted::Present) => Err(Refusal::HopPresent),
            Err(NotInserted::Full) => Err(Refusal::HopTableFull),
        }
    }

    // The first ground that a hop meets, of all but the last, which is that the table is full.
    fn fits(&self, hop: Hop) -> Result<(), Refusal>
        ensures { result ≡ refused_by (unfit (records self.now) hop) }
    {
        if !self.has_link(hop.link) {
            return Err(Refusal::LinkUnknown);
        }
        let port = self.find_port(hop.port).ok_or(Refusal::PortUnknown)?;
        if self.has_hop(hop.link, hop.port) {
            return Err(Refusal::HopPresent);
        }
        if !suited(port.kind, hop.after) {
            return Err(Refusal::KindUnsuited);
        }
        match hop.after {
            None if self.has_first_hop(hop.link) => Err(Refusal::SecondFirstHop),
            Some(before) if !self.has_hop(hop.link, before) => Err(Refusal::NoHopBefore),
            _ => Ok(()),
        }
    }

    #[tactic(auto, using(crate::proofs::Hops::has_link_told))]
    pub(crate) fn has_link(&self, number: u16) -> bool
        ensures { result ≡ has_link (records self.now) number }
    {
        self.links.get(number).is_some()
    }

    #[tactic(auto, using(crate::proofs::Hops::has_port_told, crate::proofs::Hops::port_found))]
    fn find_port(&self, number: u8) -> Option<Port>
        ensures { MatchOption result (has_port (records self.now) number ≡ false) (λ p. (has_port (records self.now) number ≡ true) × (find_port (records self.now).ports number ≡ p)) }
    {
        self.ports.get(number).map(|row| row.port)
    }

    #[tactic(auto, using(crate::proofs::Hops::has_hop_told))]
    fn has_hop(&self, link: u16, port: u8) -> bool
        ensures { result ≡ has_hop (records self.now) link port }
    {
        self.hops.get((link, port)).is_some()
    }

    #[tactic(auto, using(crate::proofs::LinkHops::first_hop_told))]
    fn has_first_hop(&self, link: u16) -> bool
        ensures { result ≡ has_first_hop (records self.now) link }
    {
        has_first(&self.hops.all()[self.run_of(link)])
    }

    // Where the hops of a link stand, one after another.
    pub(crate) fn run_of(&self, link: u16) -> Range<usize>
        ensures starts { Starts place_before hop_key (rows self.now.hops) (link, 0) result.start }
        ensures ends { RunEnd (rows self.now.hops) link result.start result.end }
    {
        let from = self.hops.start_of((link, 0));
        let to = run_end(self.hops.all(), link, from);
        from..to
    }

    // Removes a link with all its hops.
    #[tactic(auto, using(crate::proofs::Adding::removal_adds))]
    pub fn remove_link(&mut self, link: u16) -> Result<(), Refusal>
        ensures outcome { Doing (removal_ground (records self.old) link) (removed (records self.old) link) self.old self.new result }
        ensures run { Adds (remove_link link) (answer_of result) self.old self.new }
    {
        self.take_link(link)
    }

    #[tactic(auto, using(crate::proofs::LinkHops::link_unknown))]
    fn take_link(&mut self, link: u16) -> Result<(), Refusal>
        ensures { Doing (removal_ground (records self.old) link) (removed (records self.old) link) self.old self.new result }
    {
        let place = self.links.find(link).map_err(|_| Refusal::LinkUnknown)?;
        let run = self.run_of(link);
        let _ = self.links.remove_one(place);
        let _ = self.hops.remove_run(run.start, run.end);
        self.standing = false;
        Ok(())
    }

    // Removes all records; it never refuses.
    #[tactic(auto, using(crate::proofs::Adding::clearing_adds))]
    pub fn clear(&mut self)
        ensures outcome { Doing None no_records self.old self.new (Ok tt) }
        ensures run { Adds clear done self.old self.new }
    {
        self.ports.clear();
        self.links.clear();
        self.hops.clear();
        self.standing = false;
    }

    // Of counts and records told there is one for each kind: each is a call of its own, which its `run` names, as one for all
    // could not.
    // How many ports there are.
    #[tactic(auto, using(std::proofs::lemmas::Grind::common_steps, crate::proofs::Adding::port_count_adds))]
    pub fn port_count(&self) -> usize
        ensures outcome { result ≡ length (records self.now).ports }
        ensures run { Adds count_ports (count result) self.now self.now }
    {
        self.ports.count()
    }

    // How many links there are.
    #[tactic(auto, using(std::proofs::lemmas::Grind::common_steps, crate::proofs::Adding::link_count_adds))]
    pub fn link_count(&self) -> usize
        ensures outcome { result ≡ length (records self.now).links }
        ensures run { Adds count_links (count result) self.now self.now }
    {
        self.links.count()
    }

    // How many hops there are.
    #[tactic(auto, using(std::proofs::lemmas::Grind::common_steps, crate::proofs::Adding::hop_count_adds))]
    pub fn hop_count(&self) -> usize
        ensures outcome { result ≡ length (records self.now).hops }
        ensures run { Adds count_hops (count result) self.now self.now }
    {
        self.hops.count()
    }

    // The port at a place, counted from 0 in ascending order; none past the last.
    #[tactic(auto, using(crate::proofs::Adding::port_at_adds))]
    pub fn port_at(&self, place: usize) -> Option<Port>
        ensures outcome { result ≡ slice_get (records self.now).ports place }
        ensures run { Adds (port_at place) (port_is result) self.now self.now }
    {
        self.ports.at(place).map(|row| row.port)
    }

    // The link at a place, counted from 0 in ascending order; none past the last.
    #[tactic(auto, using(crate::proofs::Adding::link_at_adds))]
    pub fn link_at(&self, place: usize) -> Option<VirtualLink>
        ensures outcome { result ≡ slice_get (records self.now).links place }
        ensures run { Adds (link_at place) (link_is result) self.now self.now }
    {
        self.links.at(place).map(|row| row.link)
    }

    // The hop at a place, counted from 0 in ascending order; none past the last.
    #[tactic(auto, using(crate::proofs::Adding::hop_at_adds))]
    pub fn hop_at(&self, place: usize) -> Option<Hop>
        ensures outcome { result ≡ slice_get (records self.now).hops place }
        ensures run { Adds (hop_at place) (hop_is result) self.now self.now }
    {
        self.hops.at(place).map(|row| row.hop)
    }
}

// End systems begin links, switches carry them on.
fn suited(kind: PortKind, after: Option<u8>) -> bool
    ensures { result ≡ suits kind after }
{
    matches!(
        (kind, after),
        (PortKind::End, None) | (PortKind::Switch, Some(_))
    )
}

fn has_known_rate(port: &Port) -> bool
    ensures { result ≡ rate_known port.now }
{
    port.rate == 10 || port.rate == 100
}

// In ms; of a load it is in ns, and one test of both would have to convert.
fn has_known_gap(link: &VirtualLink) -> bool
    ensures { result ≡ gap_known link.now }
{
    matches!(link.gap, 1 | 2 | 4 | 8 | 16 | 32 | 64 | 128)
}

fn keeps_lengths(link: &VirtualLink) -> bool
    ensures { result ≡ lengths_kept link.now }
{
    64 <= link.shortest && link.shortest <= link.longest && link.longest <= 1_518
}
