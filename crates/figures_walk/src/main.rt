// figures_walk: the sample network is entered and worked out by Forward and by Line, and its figures are told.
#![tactic(auto)]

use book::books::Book;
use book::rows::{HopRow, LinkRow, PortRow};
use definitions::loads::Load;
use definitions::network::{Hop, Port, PortKind, VirtualLink};
use definitions::refusals::Refusal;
use methods::Method;
use methods::forward_analysis::Forward;
use methods::network_calculus::Line;
use std::io;

#[cfg(test)]
mod tests;

fn main(rt: HostRuntime) -> io::Result<()> {
    let mut ports = [PortRow::default(); 3];
    let mut links = [LinkRow::default(); 2];
    let mut hops = [HopRow::default(); 4];
    let mut loads = [Load::default(); 4];
    let mut book = Book::open(&mut ports, &mut links, &mut hops);
    if let Err(refusal) = enter_sample(&mut book) {
        return println!(rt; "{refusal}");
    }
    println!(rt; "by Forward")?;
    work_out(&rt, &mut book, &Forward, &mut loads)?;
    println!(rt; "by Line")?;
    work_out(&rt, &mut book, &Line, &mut loads)
}

// Two virtual links, each from an end system, that share an output port of a switch.
fn enter_sample(book: &mut Book) -> Result<(), Refusal> {
    book.enter_port(Port::new(1, PortKind::End, 100))?;
    book.enter_port(Port::new(2, PortKind::End, 100))?;
    book.enter_port(Port::new(3, PortKind::Switch, 100))?;
    book.enter_link(VirtualLink::new(10, 2, 64, 500))?;
    book.enter_link(VirtualLink::new(20, 4, 64, 1_000))?;
    book.enter_hop(Hop::new(10, 1, None))?;
    book.enter_hop(Hop::new(10, 3, Some(1)))?;
    book.enter_hop(Hop::new(20, 2, None))?;
    book.enter_hop(Hop::new(20, 3, Some(2)))
}

fn work_out<M: Method>(
    rt: &HostRuntime,
    book: &mut Book,
    method: &M,
    loads: &mut [Load],
) -> io::Result<()> {
    if let Err(refusal) = book.work_out(method, loads) {
        return println!(rt; "{refusal}");
    }
    tell_ports(rt, book)?;
    tell_hops(rt, book)?;
    tell_delays(rt, book)
}

fn tell_ports(rt: &HostRuntime, book: &Book) -> io::Result<()> {
    for port in (0..book.port_count()).filter_map(|place| book.port_at(place)) {
        let number = port.number;
        match book.port_figures(number) {
            Ok((backlog, depth)) => println!(rt;
                "  port {number}: backlog {backlog} ns, depth {depth}"
            )?,
            Err(refusal) => println!(rt; "{refusal}")?,
        }
    }
    Ok(())
}

fn tell_hops(rt: &HostRuntime, book: &Book) -> io::Result<()> {
    for Hop { link, port, .. } in (0..book.hop_count()).filter_map(|place| book.hop_at(place)) {
        match book.hop_figures(link, port) {
            Ok((earliest, latest, departure)) => println!(rt;
                "  link {link} at port {port}: earliest {earliest} ns, latest {latest} ns, departure {departure} ns"
            )?,
            Err(refusal) => println!(rt; "{refusal}")?,
        }
    }
    Ok(())
}

fn tell_delays(rt: &HostRuntime, book: &Book) -> io::Result<()> {
    for link in (0..book.link_count()).filter_map(|place| book.link_at(place)) {
        let number = link.number;
        match book.delay(number) {
            Ok(delay) => println!(rt; "  link {number}: delay {delay} ns")?,
            Err(refusal) => println!(rt; "{refusal}")?,
        }
    }
    Ok(())
}
