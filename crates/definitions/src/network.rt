ghost use Rattle.std.specs.Prelude.{◌≡◌};

// The records of a network: output ports, virtual links and the hops of links at ports.
// A value of these types may break the rules; a book takes only what keeps them. Rates and gaps are plain numbers, since the
// calls have a ground for a wrong one, which an enum could not hold.

#[derive(Clone, Copy, Default, PartialEq, Eq, Debug)]
pub enum PortKind {
    // of an end system, where links begin
    #[default]
    End,
    // of a switch
    Switch,
}

// An output port, with its rate in Mb/s.
#[derive(Clone, Copy, Default, PartialEq, Eq, Debug)]
pub struct Port {
    pub number: u8,
    pub kind: PortKind,
    pub rate: u16,
}

impl Port {
    pub fn new(number: u8, kind: PortKind, rate: u16) -> Port
        ensures { result ≡ record { number = number; kind = kind; rate = rate } }
    {
        Port { number, kind, rate }
    }
}

// A virtual link, with its gap (BAG) in ms and the lengths of its frames in bytes.
#[derive(Clone, Copy, Default, PartialEq, Eq, Debug)]
pub struct VirtualLink {
    pub number: u16,
    pub gap: u16,
    pub shortest: u16,
    pub longest: u16,
}

impl VirtualLink {
    pub fn new(number: u16, gap: u16, shortest: u16, longest: u16) -> VirtualLink
        ensures { result ≡ record { number = number; gap = gap; shortest = shortest; longest = longest } }
    {
        VirtualLink {
            number,
            gap,
            shortest,
            longest,
        }
    }
}

// A link passes a port, after another port or, at its first hop, after none.
#[derive(Clone, Copy, Default, PartialEq, Eq, Debug)]
pub struct Hop {
    pub link: u16,
    pub port: u8,
    pub after: Option<u8>,
}

impl Hop {
    pub fn new(link: u16, port: u8, after: Option<u8>) -> Hop
        ensures { result ≡ record { link = link; port = port; after = after } }
    {
        Hop { link, port, after }
    }
}
