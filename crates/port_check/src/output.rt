// What is printed of a port.
ghost use Rattle.std.specs.Prelude.{Some};
ghost use Rattle.port_check.specs.Output.{printed, Tells, Reports};

use definitions::loads::Load;
use methods::forward_analysis::Forward;
use methods::network_calculus::Line;
use methods::overload::{self, HORIZON};
use methods::{LIMIT, Method};
use std::fmt;

// Why a port has no worst backlog by a method.
#[derive(Clone, Copy, Debug, PartialEq, Eq)]
pub enum NoBacklog {
    Overloaded,
    PastLimit,
}

impl fmt::Display for NoBacklog {
    ghost output = { λ x. Some (printed x) };

    fn fmt<W: fmt::Write>(&self, f: &mut fmt::Formatter<W>) -> fmt::Result {
        match self {
            NoBacklog::Overloaded => write!(f, "overloaded, so there is no worst backlog"),
            NoBacklog::PastLimit => write!(f, "past the limit of {LIMIT} ns"),
        }
    }
}

#[derive(Clone, Copy)]
pub struct Report {
    pub loads: usize,
    pub demand: Option<u64>,
    pub forward: Result<u64, NoBacklog>,
    pub line: Result<u64, NoBacklog>,
}

impl fmt::Display for Report {
    fn fmt<W: fmt::Write>(&self, f: &mut fmt::Formatter<W>) -> fmt::Result {
        writeln!(f, "loads    {:>12}", self.loads)?;
        match self.demand {
            Some(demand) => writeln!(f, "demand   {demand:>12} ns in every {HORIZON} ns")?,
            None => writeln!(f, "demand   past 64 bits")?,
        }
        for (method, backlog) in [("Forward", self.forward), ("Line", self.line)] {
            match backlog {
                Ok(worst) => writeln!(f, "{method:<8} {worst:>12} ns")?,
                Err(reason) => writeln!(f, "{method:<8} {reason}")?,
            }
        }
        Ok(())
    }
}

// What is said of a port with these loads.
pub fn report_on(rows: &[Load]) -> Report
    ensures { Reports rows.now result }
{
    Report {
        loads: rows.len(),
        demand: overload::demand(rows),
        forward: worst_backlog(&Forward, rows),
        line: worst_backlog(&Line, rows),
    }
}

// What a method says of a port's loads.
fn worst_backlog<M: Method>(method: &M, rows: &[Load]) -> Result<u64, NoBacklog>
    ensures { Tells (M.Method.worth method.now) rows.now result }
{
    method.answer(rows).ok_or_else(|| {
        if overload::overloaded(rows) {
            NoBacklog::Overloaded
        } else {
            NoBacklog::PastLimit
        }
    })
}
