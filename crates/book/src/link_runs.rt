// The hops of one link, which stand together in the table.
ghost use Rattle.std.specs.Prelude.{◌≡◌, ◌≤◌, length};
ghost use Rattle.definitions.specs.Lists.{some};
ghost use Rattle.definitions.specs.Entries.{begins};
ghost use Rattle.working_out.specs.declared.rows.HopRow.{HopRow as Row};
ghost use Rattle.book.specs.LinkRuns.{RunEnd};

use working_out::rows::HopRow;

// Where the hops of the link end that stand from `from` on.
pub(crate) fn run_end(rows: &[HopRow], link: u16, from: usize) -> usize
    requires { from ≤ length rows.now }
    ensures { RunEnd rows.now link from result }
{
    let rest = &rows[from..];
    let others = rest.iter().position(|row| row.hop.link != link);
    from + others.unwrap_or(rest.len())
}

// Whether one of the hops is a first hop.
pub(crate) fn has_first(rows: &[HopRow]) -> bool
    ensures { result ≡ some (λ (x : Row). begins x.hop) rows.now }
{
    rows.iter().any(|row| row.hop.after.is_none())
}
