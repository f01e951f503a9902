// book_walk: a small network is entered, with every refusal of the entries on the way, a link is removed, and the book is told
// and cleared.
#![tactic(auto)]

use book::books::Book;
use book::rows::{HopRow, LinkRow, PortRow};
use definitions::network::{Hop, Port, PortKind, VirtualLink};
use definitions::refusals::Refusal;
use std::io;

fn main(rt: HostRuntime) -> io::Result<()> {
    let mut ports = [PortRow::default(); 3];
    let mut links = [LinkRow::default(); 2];
    let mut hops = [HopRow::default(); 3];
    let mut book = Book::open(&mut ports, &mut links, &mut hops);
    enter_ports(&rt, &mut book)?;
    enter_links(&rt, &mut book)?;
    enter_hops(&rt, &mut book)?;
    remove_links(&rt, &mut book)?;
    book.clear();
    tell(&rt, &book)
}

fn enter_ports(rt: &HostRuntime, book: &mut Book) -> io::Result<()> {
    say(
        rt,
        "port 1 E 100",
        book.enter_port(Port::new(1, PortKind::End, 100)),
    )?;
    say(
        rt,
        "port 2 E 100",
        book.enter_port(Port::new(2, PortKind::End, 100)),
    )?;
    say(
        rt,
        "port 3 S 1000",
        book.enter_port(Port::new(3, PortKind::Switch, 1000)),
    )?;
    say(
        rt,
        "port 2 S 10",
        book.enter_port(Port::new(2, PortKind::Switch, 10)),
    )?;
    say(
        rt,
        "port 3 S 100",
        book.enter_port(Port::new(3, PortKind::Switch, 100)),
    )?;
    say(
        rt,
        "port 4 S 100",
        book.enter_port(Port::new(4, PortKind::Switch, 100)),
    )
}

fn enter_links(rt: &HostRuntime, book: &mut Book) -> io::Result<()> {
    say(
        rt,
        "link 20 gap 4, 64 to 1000",
        book.enter_link(VirtualLink::new(20, 4, 64, 1_000)),
    )?;
    say(
        rt,
        "link 10 gap 3, 64 to 500",
        book.enter_link(VirtualLink::new(10, 3, 64, 500)),
    )?;
    say(
        rt,
        "link 10 gap 2, 63 to 500",
        book.enter_link(VirtualLink::new(10, 2, 63, 500)),
    )?;
    say(
        rt,
        "link 10 gap 2, 64 to 1519",
        book.enter_link(VirtualLink::new(10, 2, 64, 1_519)),
    )?;
    say(
        rt,
        "link 20 gap 2, 64 to 1518",
        book.enter_link(VirtualLink::new(20, 2, 64, 1_518)),
    )?;
    say(
        rt,
        "link 10 gap 2, 64 to 1518",
        book.enter_link(VirtualLink::new(10, 2, 64, 1_518)),
    )?;
    say(
        rt,
        "link 30 gap 2, 64 to 500",
        book.enter_link(VirtualLink::new(30, 2, 64, 500)),
    )
}

fn enter_hops(rt: &HostRuntime, book: &mut Book) -> io::Result<()> {
    say(rt, "hop 10 at 1", book.enter_hop(Hop::new(10, 1, None)))?;
    say(rt, "hop 30 at 1", book.enter_hop(Hop::new(30, 1, None)))?;
    say(rt, "hop 10 at 9", book.enter_hop(Hop::new(10, 9, None)))?;
    say(
        rt,
        "hop 10 at 1 again",
        book.enter_hop(Hop::new(10, 1, None)),
    )?;
    say(
        rt,
        "hop 10 at 3, first",
        book.enter_hop(Hop::new(10, 3, None)),
    )?;
    say(
        rt,
        "hop 10 at 2, first too",
        book.enter_hop(Hop::new(10, 2, None)),
    )?;
    say(
        rt,
        "hop 10 at 3 after 2",
        book.enter_hop(Hop::new(10, 3, Some(2))),
    )?;
    say(
        rt,
        "hop 10 at 3 after 1",
        book.enter_hop(Hop::new(10, 3, Some(1))),
    )?;
    say(rt, "hop 20 at 2", book.enter_hop(Hop::new(20, 2, None)))?;
    say(
        rt,
        "hop 20 at 3 after 2",
        book.enter_hop(Hop::new(20, 3, Some(2))),
    )
}

fn remove_links(rt: &HostRuntime, book: &mut Book) -> io::Result<()> {
    tell(rt, book)?;
    say(rt, "remove link 30", book.remove_link(30))?;
    say(rt, "remove link 10", book.remove_link(10))?;
    tell(rt, book)?;
    say(
        rt,
        "hop 20 at 3 after 2",
        book.enter_hop(Hop::new(20, 3, Some(2))),
    )?;
    say(
        rt,
        "link 30 gap 1, 64 to 64",
        book.enter_link(VirtualLink::new(30, 1, 64, 64)),
    )?;
    say(rt, "hop 30 at 1", book.enter_hop(Hop::new(30, 1, None)))?;
    tell(rt, book)
}

// What a call came to.
fn say(rt: &HostRuntime, call: &str, answer: Result<(), Refusal>) -> io::Result<()> {
    match answer {
        Ok(()) => println!(rt; "{call}: done"),
        Err(refusal) => println!(rt; "{call}: {refusal}"),
    }
}

// The records of the book, by their places.
fn tell(rt: &HostRuntime, book: &Book) -> io::Result<()> {
    let ports = book.port_count();
    let links = book.link_count();
    let hops = book.hop_count();
    println!(rt; "the book has {ports} ports, {links} links and {hops} hops")?;
    for link in (0..links).filter_map(|place| book.link_at(place)) {
        println!(rt; "  link {}", link.number)?;
    }
    for hop in (0..hops).filter_map(|place| book.hop_at(place)) {
        println!(rt; "  hop {} at {}", hop.link, hop.port)?;
    }
    Ok(())
}

#[cfg(test)]
mod tests {
    use super::*;

    #[test]
    fn tables_without_places_are_full(rt: HostRuntime) {
        let mut ports: [PortRow; 0] = [];
        let mut links: [LinkRow; 0] = [];
        let mut hops: [HopRow; 0] = [];
        let mut book = Book::open(&mut ports, &mut links, &mut hops);
        assert_eq!(rt;
            book.enter_port(Port::new(1, PortKind::End, 10)),
            Err(Refusal::PortTableFull)
        );
        assert_eq!(rt;
            book.enter_link(VirtualLink::new(1, 1, 64, 64)),
            Err(Refusal::LinkTableFull)
        );
        assert_eq!(rt;
            book.enter_hop(Hop::new(1, 1, None)),
            Err(Refusal::LinkUnknown)
        );
        assert_eq!(rt; book.port_at(0), None);
    }

    #[test]
    fn a_full_book_is_emptied_and_filled_again(rt: HostRuntime) {
        let mut ports = [PortRow::default(); 1];
        let mut links = [LinkRow::default(); 1];
        let mut hops = [HopRow::default(); 1];
        let mut book = Book::open(&mut ports, &mut links, &mut hops);
        for number in [7u8, 255] {
            assert_eq!(rt;
                book.enter_port(Port::new(number, PortKind::End, 10)),
                Ok(())
            );
            assert_eq!(rt;
                book.enter_link(VirtualLink::new(65_535, 128, 64, 1_518)),
                Ok(())
            );
            assert_eq!(rt; book.enter_hop(Hop::new(65_535, number, None)), Ok(()));
            assert_eq!(rt;
                book.enter_port(Port::new(1, PortKind::End, 10)),
                Err(Refusal::PortTableFull)
            );
            assert_eq!(rt; book.hop_at(0), Some(Hop::new(65_535, number, None)));
            book.clear();
            assert_eq!(rt; book.hop_count(), 0);
        }
    }
}
