//! Runs images with a thread for each hart, and prints what is demanded of such runs and whether it holds. Much of it
//! no contract can say: that threads drive the harts at all, and that the harts come to their ends.
#![tactic(auto)]

ghost use Rattle.tm_world.specs.Sound.{Sound};

mod commands;
mod demands;
mod gate;
mod images;
mod mills;

use commands::{command, held};
use demands::put_demands;
use images::{DRAWN, RACING, image_of};
use mills::{ALONE, DRIVEN, IN_TURN, alone, driven, in_turn};
use std::alloc::Global;
use std::process::ExitCode;
use std::sync::Wait;
use std::thread::Threads;
use tm_base::{Bytes, NoMemory};
use tm_desk::{RealSink, Sink, put_all};
use tm_image_build::Image;

/// Prints a part, or gives the status of a failure.
fn print<O: Sink>(out: &mut O, part: Result<Bytes, NoMemory>) -> Result<(), u8> {
    match part {
        Ok(text) => put_all(out, text.as_slice()).map_err(|_| 5),
        Err(NoMemory) => Err(6),
    }
}

/// The title of some demands, and whether they hold.
fn part<const N: usize>(
    alloc: Global,
    title: &str,
    demands: &[&str],
    hold: Result<[bool; N], NoMemory>,
) -> Result<Bytes, NoMemory> {
    let hold = hold?;
    let mut out = Bytes::new(alloc);
    out.append(title.as_bytes())?;
    put_demands(&mut out, demands, &hold)?;
    Ok(out)
}

/// Four harts go through the gate, driven by a mill alone and by the whole program.
fn print_drawn<R: Threads + Wait + Sync, O: Sink>(
    rt: &R,
    alloc: Global,
    image: &Image,
    out: &mut O,
) -> Result<(), u8>
    requires { Sound image.now.program }
{
    let drive = driven(rt, alloc, &image.program);
    print(
        out,
        part(alloc, "harts that threads drive\n", &DRIVEN, drive),
    )?;
    print(out, held(rt, alloc, image, "run a.elf --order threads"))?;
    print(out, command(rt, alloc, image, "sample 7"))
}

/// Two harts race, in single turns and in whole runs.
fn print_racing<R: Threads + Wait + Sync, O: Sink>(
    rt: &R,
    alloc: Global,
    image: &Image,
    out: &mut O,
) -> Result<(), u8>
    requires { Sound image.now.program }
{
    let one = alone(rt, alloc, &image.program);
    print(out, part(alloc, "turns of one hart alone\n", &ALONE, one))?;
    let two = in_turn(rt, alloc, &image.program);
    print(
        out,
        part(alloc, "a turn of each of two harts\n", &IN_TURN, two),
    )?;
    for _ in 0..10 {
        print(out, command(rt, alloc, image, "run a.elf --order threads"))?;
    }
    print(out, command(rt, alloc, image, "run a.elf"))?;
    print(out, command(rt, alloc, image, "run a.elf --events 500"))
}

/// Prints all parts. An image that isn't built has the status of a refused input.
fn print_all<R: Threads + Wait + Sync, O: Sink>(
    rt: &R,
    alloc: Global,
    out: &mut O,
) -> Result<(), u8> {
    let Some(drawn) = image_of(alloc, DRAWN) else {
        return Err(3);
    };
    print_drawn(rt, alloc, &drawn, out)?;
    let Some(racing) = image_of(alloc, RACING) else {
        return Err(3);
    };
    print_racing(rt, alloc, &racing, out)
}

fn main(rt: HostRuntime) -> ExitCode {
    let mut out = RealSink::new(rt.stdout());
    match print_all(&rt, rt.alloc(), &mut out) {
        Ok(()) => ExitCode::SUCCESS,
        Err(status) => ExitCode::from(status),
    }
}
