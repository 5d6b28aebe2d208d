// Arc arrival with its interval, by document 02, order 3: the starred rows and departures around a fence and midnight, each given every
// interval that its plan has and two that it has not.
use crate::arcs::print_drive;
use driving::road::Road;
use std::io;

fn print_one_speed_in(rt: &impl Print, speed: u8, departure: u32, interval: u32) -> io::Result<()> {
    let road = Road {
        fences: &[0],
        speeds: &[speed],
        metres: 1,
        hold: 0,
    };
    print!(rt; "speed {speed}, ")?;
    print_drive(rt, &road, departure, interval)
}

fn print_one_speed(rt: &impl Print, speed: u8, departure: u32) -> io::Result<()> {
    for interval in [0, 1, u32::MAX] {
        print_one_speed_in(rt, speed, departure, interval)?;
    }
    Ok(())
}

fn print_two_speeds_in(
    rt: &impl Print,
    metres: u32,
    first: u8,
    second: u8,
    departure: u32,
    interval: u32,
) -> io::Result<()> {
    let road = Road {
        fences: &[0, 100],
        speeds: &[first, second],
        metres,
        hold: 0,
    };
    print!(rt; "speed {first} and from 100 {second}, ")?;
    print_drive(rt, &road, departure, interval)
}

fn print_two_speeds(
    rt: &impl Print,
    metres: u32,
    first: u8,
    second: u8,
    departure: u32,
) -> io::Result<()> {
    for interval in [0, 1, 2, u32::MAX] {
        print_two_speeds_in(rt, metres, first, second, departure, interval)?;
    }
    Ok(())
}

pub(crate) fn print_rows(rt: &impl Print) -> io::Result<()> {
    for (speed, departure) in [(36, 0), (35, 0), (10, 0)] {
        print_one_speed(rt, speed, departure)?;
    }
    for (metres, first, second, departure) in [(1, 0, 36, 10), (1, 36, 0, 99), (2, 36, 0, 99)] {
        print_two_speeds(rt, metres, first, second, departure)?;
    }
    for departure in [1_727_964, 1_727_965] {
        print_one_speed(rt, 1, departure)?;
    }
    for departure in [100, 863_999, 864_000, 1_727_999, 1_728_000, 1_728_001] {
        print_two_speeds(rt, 1, 36, 36, departure)?;
    }
    Ok(())
}
