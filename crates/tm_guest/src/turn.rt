// What turns answer.
use tm_plan_cases::Event;

/// What a turn of a hart answers.
#[derive(Clone, Copy, Debug, PartialEq, Eq)]
pub enum Turn {
    /// It made this event, which stands at this place of the journal, counted from 0.
    Stepped { place: u64, event: Event },
    /// The hart is at its halt mark. Nothing has changed.
    Halted,
    /// The hart isn't at its halt mark, and the journal has as many events as it may. Nothing has changed.
    Full,
}

/// How a run in round order ended.
#[derive(Clone, Copy, Debug, PartialEq, Eq)]
pub enum RoundEnd {
    /// All harts are at their halt marks.
    Done,
    /// The journal has as many events as it may, and some hart isn't at its halt mark.
    Full,
}
