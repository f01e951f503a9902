// port_check: the worst backlog of one output port.
// Standard input has one load to a line, `occupancy,gap,jitter` in ns; docs/PORT_CHECK.md has the format.
#![tactic(auto)]

mod faults;
mod input;
mod output;

use input::ReadError;
use std::alloc::{AllocError, Global};
use std::io::Read;

fn main(rt: HostRuntime) -> anyhow::Result<()> {
    let mut text = Vec::new(rt.alloc());
    rt.stdin().read_to_end(&mut text)?;
    print!(rt; "{}", check(rt.alloc(), &text)?)?;
    Ok(())
}

// What the program prints for this input: the report on its loads, or the first line that is no load.
fn check(heap: Global, text: &[u8]) -> Result<String, AllocError> {
    match input::read_loads(heap, text) {
        Ok(rows) => format!(in heap; "{}", output::report_on(&rows)),
        Err(ReadError::Faulty(fault)) => format!(in heap; "{fault}"),
        Err(ReadError::OutOfMemory(e)) => Err(e),
    }
}

#[cfg(test)]
mod tests {
    use super::check;
    use std::alloc::Global;
    use std::process::Abort;
    use std::test::Fail;

    fn prints(rt: &impl Abort, heap: Global, text: &str, printed: &str) -> Result<(), Fail> {
        let output = check(heap, text.as_bytes())?;
        assert_eq!(rt; output.as_str(), printed, "{}", text);
        Ok(())
    }

    #[test]
    fn reports(rt: HostRuntime) -> Result<(), Fail> {
        for (text, printed) in [
            (
                "",
                "loads               0\ndemand              0 ns in every 128000000 ns\nForward             0 ns\nLine                0 ns\n",
            ),
            (
                "800000,1000000,900000\n",
                "loads               1\ndemand      102400000 ns in every 128000000 ns\nForward       1500000 ns\nLine          1520000 ns\n",
            ),
            // the last line feed may be missing
            (
                "40000,2000000,34880\n80000,4000000,74880",
                "loads               2\ndemand        5120000 ns in every 128000000 ns\nForward        120000 ns\nLine           122196 ns\n",
            ),
            (
                "1,1000000,500000\n1,1000000,500000\n1,1000000,500000\n",
                "loads               3\ndemand            384 ns in every 128000000 ns\nForward             3 ns\nLine                6 ns\n",
            ),
            (
                "1000800,1000000,0\n",
                "loads               1\ndemand      128102400 ns in every 128000000 ns\nForward  overloaded, so there is no worst backlog\nLine     overloaded, so there is no worst backlog\n",
            ),
            (
                "999999,1000000,9999010001\n",
                "loads               1\ndemand      127999872 ns in every 128000000 ns\nForward   10000000000 ns\nLine     past the limit of 10000000000 ns\n",
            ),
        ] {
            prints(&rt, rt.alloc(), text, printed)?;
        }
        Ok(())
    }

    #[test]
    fn faults(rt: HostRuntime) -> Result<(), Fail> {
        for (text, printed) in [
            (
                "1,1000000,0\n1,3000000,0\n0,1000000,0\n",
                "line 2: refused by 4: the gap is none of 1, 2, 4, 8, 16, 32, 64 and 128 ms\n",
            ),
            (
                "0,1000000,0\n",
                "line 1: refused by 5: occupancy is from 1 to 2000000, jitter from 0 to 10000016000\n",
            ),
            (
                "1,1000000\n",
                "line 1: refused by 21: a load has three fields, occupancy,gap,jitter\n",
            ),
            (
                "1,1000000,0,0\n",
                "line 1: refused by 21: a load has three fields, occupancy,gap,jitter\n",
            ),
            (
                "\n",
                "line 1: refused by 21: a load has three fields, occupancy,gap,jitter\n",
            ),
        ] {
            prints(&rt, rt.alloc(), text, printed)?;
        }
        Ok(())
    }

    #[test]
    fn unreadable_fields(rt: HostRuntime) -> Result<(), Fail> {
        for field in ["x", "", "-1", "+1", "007", " 1", "18446744073709551616"] {
            for (text, printed) in [
                (
                    format!(in rt.alloc(); "{field},1000000,0\n")?,
                    "line 1: refused by 22: field 1 is no number of ns\n",
                ),
                (
                    format!(in rt.alloc(); "1,1000000,0\n1,{field},0\n")?,
                    "line 2: refused by 22: field 2 is no number of ns\n",
                ),
                (
                    format!(in rt.alloc(); "1,1000000,{field}")?,
                    "line 1: refused by 22: field 3 is no number of ns\n",
                ),
            ] {
                prints(&rt, rt.alloc(), text.as_str(), printed)?;
            }
        }
        Ok(())
    }
}
