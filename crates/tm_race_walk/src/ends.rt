// What depends at the end of a hart's stream.
ghost use Rattle.std.specs.Prelude.{◌≡◌, ◌<◌, ◌≤◌, ℕ, length, slice_get, Some};
ghost use Rattle.tm_plan_cases.specs.declared.cases.Stream.{Stream as TheStream};
ghost use Rattle.tm_plane.specs.Plane.{in_plane};
ghost use Rattle.tm_race_walk.specs.Shapes.{IsOfShaped, another_in, own_in};
ghost use Rattle.tm_race_walk.specs.Taints.{StandsAt};

use crate::stores::stream_of;
use crate::walking::Taint;
use tm_base::MOST_SLOTS;
use tm_plan_cases::{Case, Stream};
use tm_plane::Plane;

// How many slots a stream has.
fn slots_of(stream: &Stream) -> u32
    requires { length stream.now.words ≤ MOST_SLOTS }
    ensures { result ≡ length stream.now.words }
{
    stream.words.as_slice().len() as u32
}

/// What depends at the end of hart `h`'s stream. `h` is below the number of streams, and the case is one of shaped
/// cases. `others` are the bytes with another may-writer, and `own` those whose only may-writer is `h`.
pub fn end_of(case: &Case, h: u32, others: &Plane, own: &Plane) -> Taint
    requires case { IsOfShaped case.now }
    requires hart { h < length case.now.streams }
    requires others { (b : ℕ) → in_plane others.now b ≡ another_in case.now h b }
    requires own { (b : ℕ) → in_plane own.now b ≡ own_in case.now h b }
    ensures { (s : TheStream) → slice_get case.now.streams h ≡ Some s → StandsAt case.now h (length s.words) result }
{
    let count = slots_of(stream_of(case, h));
    let mut t = Taint::fresh();
    for i in 0..count {
        t.forward(case, h, i, others, own);
    }
    t
}
