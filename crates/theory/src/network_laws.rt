// Rings, figures and working out.
ghost use Rattle.definitions.specs.Promises.{FiguresAreExactlyOne, ARingIsToldExactly, WithoutARingPortsAreRanked, AWorkingOutComesToOne, ForwardIsNeverLarger};

// Without a ring, the figures of a method are exactly one.
pub fn figures_are_exactly_one()
    ensures { FiguresAreExactlyOne }
{}

// A ring is told exactly when some port feeds itself.
pub fn a_ring_is_told_exactly()
    ensures { ARingIsToldExactly }
{}

// Without a ring, the ports can be ranked so that each hop goes up.
pub fn without_a_ring_ports_are_ranked()
    ensures { WithoutARingPortsAreRanked }
{}

// A working-out comes to exactly one outcome.
pub fn a_working_out_comes_to_one()
    ensures { AWorkingOutComesToOne }
{}

// Where a working-out by a lawful method succeeds, so does one by Forward, and no figure is larger.
pub fn forward_is_never_larger()
    ensures { ForwardIsNeverLarger }
{}
