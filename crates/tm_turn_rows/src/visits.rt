// Threads that come by at one value.
ghost use Rattle.std.specs.Prelude.{◌≡◌, ◌≤◌, ℕ, false, Some, take, length, slice_get};
ghost use Rattle.tm_turn.specs.History.{AddsAtMostOne};
ghost use Rattle.tm_turn.specs.Seats.{SeatState, AreNew};

use std::alloc::Global;
use std::sync::Wait;
use std::sync::atomic::{AtomicU64, Ordering};
use std::thread;
use std::thread::Threads;
use tm_base::NoMemory;
use tm_turn::{Kept, Line, LineSeat};

/// The numbers of the seats that came by, at most three.
#[derive(Drop)]
struct Visits {
    numbers: [u32; 3],
    count: usize,
    ghost fits: { count ≤ 3 },
}

impl Kept for Visits {
    type Entry = u32;

    type Fixed = ();

    ghost history = { λ v. take v.count v.numbers };

    ghost maker = { λ number. number };

    ghost fixed = { λ _. tt };

    fn entries(&self) -> u64 {
        self.count as u64
    }
}

impl Visits {
    /// Adds an entry, if there is room.
    fn add(&mut self, number: u32)
        ensures { AddsAtMostOne (λ (n : ℕ). n) number
            (take self.old.count self.old.numbers)
            (take self.new.count self.new.numbers) }
    {
        if self.count < 3 {
            self.numbers[self.count] = number;
            self.count += 1;
        }
    }
}

/// Enters, adds an entry, leaves and reads the count.
fn visit<R: Wait>(rt: &R, line: &Line<Visits>, seat: &mut LineSeat<Visits>) -> u64
    requires { (seat.old.line ≡ line.now) × (seat.old.inside ≡ false) }
    ensures { (seat.new.line ≡ line.now)
        × (seat.new.number ≡ seat.old.number)
        × (seat.new.inside ≡ false) }
{
    let mut visits = line.enter(rt, seat);
    visits.add(seat.number());
    line.leave(seat, visits);
    line.count(seat)
}

/// One visit with each seat, and the greatest count that was read.
fn visit_by_threads<R: Threads + Wait + Sync>(
    rt: &R,
    line: &Line<Visits>,
    seats: &mut [LineSeat<Visits>],
    most: &AtomicU64,
)
    requires new { AreNew line.now 0 seats.old }
    requires all { length seats.old ≡ line.now.seats }
    ensures same { length seats.new ≡ length seats.old }
    ensures each { (k : ℕ) (s t : SeatState ℕ (Unit {0})) → slice_get seats.old k ≡ Some s
        → slice_get seats.new k ≡ Some t
        → (t.line ≡ line.now) × (t.number ≡ s.number) × (t.inside ≡ false) }
{
    thread::for_each_mut(
        rt,
        seats,
        3,
        &|_place: usize, seat: &mut LineSeat<Visits>|
            requires { (seat.old.line ≡ line.now) × (seat.old.inside ≡ false) }
            ensures { (seat.new.line ≡ line.entry.now)
                × (seat.new.number ≡ seat.old.number)
                × (seat.new.inside ≡ false) }
        {
            most.fetch_max(visit(rt, line, seat), Ordering::SeqCst);
        },
    );
}

/// A line is shared and seats are sent wherever the value may be sent.
fn crosses_threads<T: Kept + Send>(line: &Line<T>, seats: &Vec<LineSeat<T>>) {
    share(line);
    send(seats);
}

fn share<X: Sync>(_shared: &X) {}

fn send<X: Send>(_sent: &X) {}

/// The greatest count that was read, and the numbers of the seats that came by, in order.
#[derive(Drop)]
pub struct Came {
    pub most: u64,
    pub numbers: [u32; 3],
}

/// Three threads come by.
pub fn come_by<R: Threads + Wait + Sync>(rt: &R, alloc: Global) -> Result<Came, NoMemory> {
    let visits = Visits {
        numbers: [0; 3],
        count: 0,
    };
    let (line, mut seats) = Line::start(alloc, visits, 3)?;
    crosses_threads(&line, &seats);
    let most = AtomicU64::new(0);
    visit_by_threads(rt, &line, seats.as_mut_slice(), &most);
    let mut visits = line.close(seats);
    visits.numbers.as_mut_slice().sort_unstable();
    let numbers = visits.numbers;
    Ok(Came {
        most: most.load(Ordering::SeqCst),
        numbers,
    })
}
