// The book itself.
ghost use Rattle.register.specs.Registers.{rows};
ghost use Rattle.working_out.specs.Rows.{AtRest};

use register::registers::Register;
use working_out::rows::{HopRow, LinkRow, PortRow};

// Three registers, and whether figures stand. The figures themselves stand in the lent rows, so that no Option can
// hold them. Between calls the marks of a working-out are at rest.
#[derive(Drop)]
pub struct Book<'a> {
    pub(crate) ports: Register<'a, PortRow>,
    pub(crate) links: Register<'a, LinkRow>,
    pub(crate) hops: Register<'a, HopRow>,
    pub(crate) standing: bool,
    ghost at_rest: { AtRest (rows ports) },
}
