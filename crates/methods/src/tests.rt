use crate::Method;
use crate::forward_analysis::Forward;
use crate::network_calculus::Line;
use crate::overload::{demand, overloaded};
use definitions::loads::Load;
use std::process::Abort;

fn load(occupancy: u64, gap: u64, jitter: u64) -> Load {
    Load {
        occupancy,
        gap,
        jitter,
    }
}

// Forward and Line answer these.
fn answers(rt: &impl Abort, rows: &[Load], forward: Option<u64>, line: Option<u64>) {
    assert_eq!(rt; Forward.answer(rows), forward, "Forward");
    assert_eq!(rt; Line.answer(rows), line, "Line");
}

#[test]
fn worths(rt: HostRuntime) {
    answers(&rt, &[], Some(0), Some(0));
    let lone = [load(800_000, 1_000_000, 900_000)];
    answers(&rt, &lone, Some(1_500_000), Some(1_520_000));
    let two = [
        load(40_000, 2_000_000, 34_880),
        load(80_000, 4_000_000, 74_880),
    ];
    answers(&rt, &two, Some(120_000), Some(122_196));
    // Line rounds each load's burst up
    let halves = [load(1, 1_000_000, 500_000), load(1, 1_000_000, 500_000)];
    answers(&rt, &halves, Some(2), Some(4));
    // the backlog is 1,000,000 at 0, 900,000 at 200,000 and 1,500,000 at 500,000
    let later = [
        load(100_000, 1_000_000, 800_000),
        load(900_000, 128_000_000, 127_500_000),
    ];
    answers(&rt, &later, Some(1_500_000), Some(1_976_485));
    // the port is never idle before the horizon
    answers(
        &rt,
        &[load(1_000_000, 1_000_000, 0)],
        Some(1_000_000),
        Some(1_000_000),
    );
}

#[test]
fn at_the_limit(rt: HostRuntime) {
    let most = Some(10_000_000_000);
    answers(
        &rt,
        &[load(1_000_000, 1_000_000, 9_999_000_000)],
        most,
        most,
    );
    answers(
        &rt,
        &[load(1_000_000, 1_000_000, 9_999_000_001)],
        None,
        None,
    );
    answers(&rt, &[load(999_999, 1_000_000, 9_999_010_001)], most, None);
}

#[test]
fn overloads(rt: HostRuntime) {
    let full = load(1_000_000, 1_000_000, 0);
    assert_eq!(rt; demand(&[full]), Some(128_000_000));
    assert!(rt; !overloaded(&[full]));
    let over = [load(1_000_800, 1_000_000, 0)];
    assert_eq!(rt; demand(&over), Some(128_102_400));
    assert!(rt; overloaded(&over));
    answers(&rt, &over, None, None);
    // past 64 bits
    let far = [full, load(u64::MAX, 128_000_000, 0)];
    assert_eq!(rt; demand(&far), None);
    assert!(rt; overloaded(&far));
}

#[test]
fn no_loads(rt: HostRuntime) {
    let good = load(1, 1_000_000, 0);
    for bad in [
        load(0, 1_000_000, 0),
        load(1, 0, 0),
        load(1, 1_000_000, u64::MAX),
    ] {
        answers(&rt, &[bad], None, None);
        answers(&rt, &[bad, good], None, None);
        answers(&rt, &[good, bad], None, None);
    }
}
