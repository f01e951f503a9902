// Worked figures and refusals, through the calls of a book and over tables.
use super::*;
use register::tables::Table;
use working_out::working;

// A link of gap 1 ms from an end system over the given ports, all at 10 Mb/s.
fn enter_chain(
    book: &mut Book,
    number: u16,
    shortest: u16,
    longest: u16,
    ports: &[u8],
) -> Result<(), Refusal> {
    book.enter_link(VirtualLink::new(number, 1, shortest, longest))?;
    let mut before = None;
    for at in ports {
        let kind = match before {
            None => PortKind::End,
            Some(_) => PortKind::Switch,
        };
        book.enter_port(Port::new(*at, kind, 10))?;
        book.enter_hop(Hop::new(number, *at, before))?;
        before = Some(*at);
    }
    Ok(())
}

#[test]
fn a_full_port_and_an_overfull_one(rt: HostRuntime) {
    let mut ports = [PortRow::default(); 2];
    let mut links = [LinkRow::default(); 2];
    let mut hops = [HopRow::default(); 2];
    let mut loads = [Load::default(); 2];
    let mut book = Book::open(&mut ports, &mut links, &mut hops);
    assert_eq!(rt; enter_chain(&mut book, 1, 1_250, 1_250, &[1]), Ok(()));
    assert_eq!(rt; book.port_figures(1), Err(Refusal::NoFigures));
    assert_eq!(rt; book.work_out(&Forward, &mut loads), Ok(()));
    assert_eq!(rt; book.port_figures(1), Ok((1_000_000, 1)));
    assert_eq!(rt; book.port_figures(2), Err(Refusal::PortUnknown));
    assert_eq!(rt; enter_chain(&mut book, 2, 1_251, 1_251, &[7]), Ok(()));
    assert_eq!(rt; book.delay(1), Err(Refusal::NoFigures));
    assert_eq!(rt;
        book.work_out(&Line, &mut loads),
        Err(Refusal::PortOverloaded { port: 7 })
    );
    assert_eq!(rt; book.hop_figures(1, 1), Err(Refusal::NoFigures));
}

#[test]
fn a_full_port_going_on(rt: HostRuntime) {
    let mut ports = [PortRow::default(); 3];
    let mut links = [LinkRow::default(); 2];
    let mut hops = [HopRow::default(); 2];
    let mut loads = [Load::default(); 2];
    let mut book = Book::open(&mut ports, &mut links, &mut hops);
    assert_eq!(rt; enter_chain(&mut book, 1, 64, 1_250, &[1, 2]), Ok(()));
    assert_eq!(rt; book.enter_link(VirtualLink::new(5, 128, 64, 64)), Ok(()));
    assert_eq!(rt;
        book.enter_port(Port::new(9, PortKind::Switch, 100)),
        Ok(())
    );
    assert_eq!(rt; book.work_out(&Forward, &mut loads), Ok(()));
    assert_eq!(rt; book.port_figures(2), Ok((1_948_800, 3)));
    assert_eq!(rt; book.hop_figures(1, 2), Ok((67_200, 1_016_000, 2_964_800)));
    assert_eq!(rt; book.delay(1), Ok(2_964_800));
    assert_eq!(rt; book.port_figures(9), Ok((0, 0)));
    assert_eq!(rt; book.hop_figures(3, 2), Err(Refusal::LinkUnknown));
    assert_eq!(rt; book.hop_figures(1, 3), Err(Refusal::PortUnknown));
    assert_eq!(rt; book.hop_figures(1, 9), Err(Refusal::NoHopThere));
    assert_eq!(rt; book.delay(2), Err(Refusal::LinkUnknown));
    assert_eq!(rt; book.delay(5), Err(Refusal::NoHops));
}

#[test]
fn a_load_table_one_place_short(rt: HostRuntime) {
    let mut ports = [PortRow::default(); 2];
    let mut links = [LinkRow::default(); 1];
    let mut hops = [HopRow::default(); 2];
    let mut loads = [Load::default(); 2];
    let mut book = Book::open(&mut ports, &mut links, &mut hops);
    assert_eq!(rt; enter_chain(&mut book, 1, 64, 1_250, &[1, 2]), Ok(()));
    assert_eq!(rt; book.work_out(&Forward, &mut loads), Ok(()));
    assert_eq!(rt; book.delay(1), Ok(2_964_800));
    assert_eq!(rt;
        book.work_out(&Forward, &mut loads[..1]),
        Err(Refusal::LoadTableShort)
    );
    assert_eq!(rt; book.delay(1), Err(Refusal::NoFigures));
}

#[test]
fn ports_in_a_ring(rt: HostRuntime) {
    let mut ports = [PortRow::default(); 5];
    let mut links = [LinkRow::default(); 3];
    let mut hops = [HopRow::default(); 7];
    let mut loads = [Load::default(); 7];
    let mut book = Book::open(&mut ports, &mut links, &mut hops);
    assert_eq!(rt; book.enter_port(Port::new(1, PortKind::End, 100)), Ok(()));
    assert_eq!(rt; book.enter_port(Port::new(2, PortKind::End, 100)), Ok(()));
    assert_eq!(rt;
        book.enter_port(Port::new(3, PortKind::Switch, 100)),
        Ok(())
    );
    assert_eq!(rt;
        book.enter_port(Port::new(4, PortKind::Switch, 100)),
        Ok(())
    );
    for (number, first, second, third) in [(1u16, 1u8, 3u8, 4u8), (2, 2, 4, 3)] {
        assert_eq!(rt;
            book.enter_link(VirtualLink::new(number, 8, 64, 200)),
            Ok(())
        );
        assert_eq!(rt; book.enter_hop(Hop::new(number, first, None)), Ok(()));
        assert_eq!(rt;
            book.enter_hop(Hop::new(number, second, Some(first))),
            Ok(())
        );
        assert_eq!(rt;
            book.enter_hop(Hop::new(number, third, Some(second))),
            Ok(())
        );
    }
    assert_eq!(rt;
        book.work_out(&Forward, &mut loads),
        Err(Refusal::PortInRing { port: 3 })
    );
    // an overload is told before a ring
    assert_eq!(rt; enter_chain(&mut book, 3, 1_251, 1_251, &[200]), Ok(()));
    assert_eq!(rt;
        book.work_out(&Forward, &mut loads),
        Err(Refusal::PortOverloaded { port: 200 })
    );
}

// Each further full port nearly doubles the departure: the fourteenth passes 10 s.
#[test]
fn figures_past_the_limit(rt: HostRuntime) {
    let mut ports = [PortRow::default(); 29];
    let mut links = [LinkRow::default(); 2];
    let mut hops = [HopRow::default(); 29];
    let mut loads = [Load::default(); 29];
    let mut book = Book::open(&mut ports, &mut links, &mut hops);
    let thirteen = [60, 61, 62, 63, 64, 65, 66, 67, 68, 69, 70, 71, 72];
    assert_eq!(rt; enter_chain(&mut book, 2, 64, 1_250, &thirteen), Ok(()));
    assert_eq!(rt; book.work_out(&Forward, &mut loads), Ok(()));
    assert_eq!(rt; book.delay(2), Ok(7_772_478_400));
    // the fourteenth
    assert_eq!(rt;
        book.enter_port(Port::new(73, PortKind::Switch, 10)),
        Ok(())
    );
    assert_eq!(rt; book.enter_hop(Hop::new(2, 73, Some(72))), Ok(()));
    assert_eq!(rt;
        book.work_out(&Forward, &mut loads),
        Err(Refusal::FigurePastLimit { port: 73 })
    );
    // of another link the fourteenth port is 40, and the port 39 after it is fed by it
    let fifteen = [53, 52, 51, 50, 49, 48, 47, 46, 45, 44, 43, 42, 41, 40, 39];
    assert_eq!(rt; enter_chain(&mut book, 1, 64, 1_250, &fifteen), Ok(()));
    assert_eq!(rt;
        book.work_out(&Forward, &mut loads),
        Err(Refusal::FigurePastLimit { port: 40 })
    );
    assert_eq!(rt; book.delay(1), Err(Refusal::NoFigures));
}

// Forward over tables of these rows, all places in use.
fn work_out_tables(
    ports: &mut [PortRow],
    links: &mut [LinkRow],
    hops: &mut [HopRow],
) -> Result<(), Refusal> {
    let mut loads = [Load::default(); 2];
    let mut port_table = Table {
        len: ports.len(),
        places: ports,
    };
    let link_table = Table {
        len: links.len(),
        places: links,
    };
    let mut hop_table = Table {
        len: hops.len(),
        places: hops,
    };
    working::work_out(
        &mut port_table,
        &link_table,
        &mut hop_table,
        &Forward,
        &mut loads,
    )
}

// The rows of a full port going on.
fn chain_rows() -> ([PortRow; 2], [LinkRow; 1], [HopRow; 2]) {
    (
        [
            PortRow::new(Port::new(1, PortKind::End, 10)),
            PortRow::new(Port::new(2, PortKind::Switch, 10)),
        ],
        [LinkRow {
            link: VirtualLink::new(1, 1, 64, 1_250),
        }],
        [
            HopRow::new(Hop::new(1, 1, None)),
            HopRow::new(Hop::new(1, 2, Some(1))),
        ],
    )
}

#[test]
fn filled_tables_are_worked_out(rt: HostRuntime) {
    let (mut ports, mut links, mut hops) = chain_rows();
    assert_eq!(rt; work_out_tables(&mut ports, &mut links, &mut hops), Ok(()));
    assert_eq!(rt; (ports[1].backlog, ports[1].depth), (1_948_800, 3));
    assert_eq!(rt; (hops[1].earliest, hops[1].latest), (67_200, 1_016_000));
}

#[test]
fn tables_out_of_order_leave_no_figures(rt: HostRuntime) {
    let (mut ports, mut links, mut hops) = chain_rows();
    assert_eq!(rt; work_out_tables(&mut ports, &mut links, &mut hops), Ok(()));
    let mut turned = [ports[1], ports[0]];
    assert_eq!(rt;
        work_out_tables(&mut turned, &mut links, &mut hops),
        Err(Refusal::NoFigures)
    );
    assert_eq!(rt; turned[0].port.number, 2);
    assert_eq!(rt; (turned[0].backlog, turned[0].depth), (0, 0));
    assert_eq!(rt; hops[1].hop.port, 2);
    assert_eq!(rt; (hops[1].earliest, hops[1].latest), (0, 0));
}
