//! Three threads come by at a value in a line, once each. It prints the greatest count that they read and which seats
//! came by: no contract says that a thread runs, or that its turn comes.
#![tactic(auto)]

mod visits;

use std::io::{self, ErrorKind};
use visits::come_by;

fn main(rt: HostRuntime) -> io::Result<()> {
    let Ok(came) = come_by(&rt, rt.alloc()) else {
        return Err(ErrorKind::OutOfMemory.into());
    };
    println!(rt; "greatest count: {}", came.most)?;
    for number in came.numbers.as_slice() {
        println!(rt; "seat {number} came by")?;
    }
    Ok(())
}
