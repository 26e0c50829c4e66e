// Harts driven by threads.
ghost use Rattle.std.specs.Prelude.{◌≡◌, ℕ, length, slice_get, Some};
ghost use Rattle.tm_harts.specs.Mills.{AreOf, AreAllOf};
ghost use Rattle.tm_harts.specs.Driven.{AreDriven};

use crate::mill::{Mill, Seat};
use crate::waiting::Waiting;
use std::sync::Wait;
use std::thread;
use std::thread::Threads;
use tm_desk::Gate;
use tm_guest::Turn;

/// How many times in a row a hart may hold back until its work ends. A sleep in which no event came counts for some of
/// them.
const PATIENCE: u32 = 10_000_000;

/// Drives each seat by work of its own, which a thread does where threads are to be had, and returns when all are
/// done. The work on a seat passes the gate and takes a turn, over and over, until the turn answers `Halted` or
/// `Full`, or has answered `None` 10,000,000 times in a row, where a sleep of a millisecond in which no event came
/// counts for 1,000 of them. It may wait, and takes no memory.
pub fn run_threads<'a, R: Threads + Wait + Sync, G: Gate>(
    rt: &R,
    mill: &Mill<'a>,
    seats: &mut [Seat<'a>],
    gate: &G,
)
    requires { AreOf mill.now seats.old }
    ensures same { length seats.new ≡ length seats.old }
    ensures driven { AreDriven mill.now seats.old seats.new }
    ensures all { AreAllOf mill.now seats.old → AreAllOf mill.now seats.new }
{
    let waiting = Waiting::new();
    let driver = Driver {
        rt,
        mill,
        gate,
        waiting: &waiting,
    };
    work_on_each(rt, &driver, seats);
}

/// Work on a value, which any thread may do. (A closure won't do in its place: the seats name the lifetime of the
/// guest of the mill that it would hold, and a closure's parameters have lifetimes of their own.)
trait Work<T>: Sync {
    ghost accepts: { Self → T → Type 0 };

    ghost leaves: { Self → T → T → Type 0 };

    fn work(&self, value: &mut T)
        requires { accepts self.now value.old }
        ensures { leaves self.now value.old value.new };
}

/// Works on each value, in a thread of its own where threads are to be had.
fn work_on_each<R: Threads + Sync, W: Work<T>, T: Send>(rt: &R, work: &W, values: &mut [T])
    requires { (k : ℕ) (x : T) → slice_get values.old k ≡ Some x → W.accepts work.now x }
    ensures same { length values.new ≡ length values.old }
    ensures each { (k : ℕ) (x y : T) → slice_get values.old k ≡ Some x
        → slice_get values.new k ≡ Some y
        → W.leaves work.now x y }
{
    let threads = values.len().max(1);
    thread::for_each_mut(
        rt,
        values,
        threads,
        &|_place, value|
            requires { W.accepts work.now value.old }
            ensures { W.leaves work.entry.now value.old value.new }
        { work.work(value) },
    );
}

/// What drives the seats of a mill.
#[derive(Drop)]
struct Driver<'b, 'a, R, G> {
    rt: &'b R,
    mill: &'b Mill<'a>,
    gate: &'b G,
    waiting: &'b Waiting,
}

impl<'b, 'a, R: Wait + Sync, G: Gate> Work<Seat<'a>> for Driver<'b, 'a, R, G> {
    ghost use Rattle.tm_harts.specs.Mills.{IsOf};
    ghost use Rattle.tm_harts.specs.Driven.{IsDriven};

    ghost accepts = { λ d seat. IsOf d.mill.now seat };

    ghost leaves = { λ d old new. IsDriven d.mill.now old new };

    fn work(&self, seat: &mut Seat<'a>) {
        let Driver {
            rt,
            mill,
            gate,
            waiting,
        } = self;
        waiting.begin();
        let mut held_back = 0;
        for _ in rt.forever() {
            let known = if held_back == 0 { 0 } else { mill.glance() };
            gate.pass(seat.number());
            match mill.turn(*rt, seat) {
                None => {
                    held_back = waiting.held_back(*rt, mill, held_back, known);
                    if held_back >= PATIENCE {
                        waiting.end();
                        return;
                    }
                }
                Some(Turn::Stepped { place, .. }) => {
                    held_back = 0;
                    waiting.made(place);
                }
                Some(Turn::Halted) => {
                    waiting.end();
                    return;
                }
                Some(Turn::Full) => {
                    waiting.end();
                    return;
                }
            }
        }
        unreachable!()
    }
}
