// The rows of the tables: records with their figures.
ghost use Rattle.std.specs.Prelude.{◌≡◌};
ghost use Rattle.working_out.specs.Rows.{bare_port, bare_hop, rested};
ghost use Rattle.working_out.specs.Marks.{marked as at_progress};
ghost use Rattle.working_out.specs.Rings.{marked};

use definitions::network::{Hop, Port, VirtualLink};
use register::keys::Keyed;

// How far a working-out has come with a port.
#[derive(Clone, Copy, Default, PartialEq, Eq, Debug)]
pub enum Progress {
    // no hop there is known to wait
    #[default]
    Open,
    // a hop there comes after a port that is not worked out
    Waiting,
    // its figures are worked out
    WorkedOut,
    // a figure of it exceeds the limit
    PastLimit,
}

// A port, with its worst backlog in ns and its queue depth in frames, which mean something while figures stand. The last two
// fields are marks of the working-out, at rest when it ends: how far it has come with the port, and whether the port that is
// being tried for a ring feeds it. The figures are not in the case `WorkedOut` of `progress`, which could not hold them when
// that is put to rest: no plainer. A set of ports that are fed would take memory from the heap.
#[derive(Clone, Copy, Default)]
pub struct PortRow {
    pub port: Port,
    pub backlog: u64,
    pub depth: u64,
    pub progress: Progress,
    pub fed: bool,
}

impl PortRow {
    // The row of a port, without figures.
    pub fn new(port: Port) -> PortRow
        ensures { result ≡ bare_port port }
    {
        PortRow {
            port,
            ..PortRow::default()
        }
    }

    // This row, with the working-out come so far.
    pub(crate) fn at(self, progress: Progress) -> PortRow
        ensures { result ≡ at_progress progress self }
    {
        PortRow { progress, ..self }
    }

    // This row, with the marks of a working-out at rest.
    pub(crate) fn at_rest(self) -> PortRow
        ensures { result ≡ rested self }
    {
        self.at(Progress::Open).marked(false)
    }

    // This row, marked as fed or not.
    pub(crate) fn marked(self, fed: bool) -> PortRow
        ensures { result ≡ marked fed self }
    {
        PortRow { fed, ..self }
    }
}

// A virtual link: a type of its own, since this crate can give the register's trait only to its own types.
#[derive(Clone, Copy, Default)]
pub struct LinkRow {
    pub link: VirtualLink,
}

// A hop, with the earliest and the latest arrival of a frame there, in ns after its release.
#[derive(Clone, Copy, Default)]
pub struct HopRow {
    pub hop: Hop,
    pub earliest: u64,
    pub latest: u64,
}

impl HopRow {
    // The row of a hop, without figures.
    pub fn new(hop: Hop) -> HopRow
        ensures { result ≡ bare_hop hop }
    {
        HopRow {
            hop,
            ..HopRow::default()
        }
    }
}

impl Keyed for PortRow {
    type K = u8;

    ghost key = { λ r. r.port.number };

    fn key(&self) -> u8 {
        self.port.number
    }
}

impl Keyed for LinkRow {
    type K = u16;

    ghost key = { λ r. r.link.number };

    fn key(&self) -> u16 {
        self.link.number
    }
}

impl Keyed for HopRow {
    type K = (u16, u8);

    ghost key = { λ r. (r.hop.link, r.hop.port) };

    fn key(&self) -> (u16, u8) {
        (self.hop.link, self.hop.port)
    }
}
