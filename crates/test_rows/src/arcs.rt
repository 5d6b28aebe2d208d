// Arc arrival on a line.
use arc_arrival::arc::arc_arrival;
use driving::road::Road;
use model::tick::{Arrival, Tick};
use refusals::refusal::Refusal;
use std::io;

fn print_arrival(rt: &impl Print, answer: Result<Option<Arrival>, Refusal>) -> io::Result<()> {
    match answer {
        Ok(Some(Arrival { tick, interval })) => {
            println!(rt; "arrives at {} in interval {interval}", tick.number)
        }
        Ok(None) => println!(rt; "cannot be driven"),
        Err(refusal) => println!(rt; "refused {}", refusal.number()),
    }
}

pub(crate) fn print_drive(
    rt: &impl Print,
    road: &Road,
    departure: u32,
    interval: u32,
) -> io::Result<()> {
    print!(rt;
        "length {} from {departure} in interval {interval}: ",
        road.metres
    )?;
    print_arrival(rt, arc_arrival(road, Tick { number: departure }, interval))
}

// One interval from tick 0 on, left at tick 0.
pub(crate) fn print_row(rt: &impl Print, metres: u32, speed: u8) -> io::Result<()> {
    let road = Road {
        fences: &[0],
        speeds: &[speed],
        metres,
        hold: 0,
    };
    print!(rt; "length {metres} speed {speed}: ")?;
    print_arrival(rt, arc_arrival(&road, Tick { number: 0 }, 0))
}
