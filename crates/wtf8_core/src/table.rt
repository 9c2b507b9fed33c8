//! The table by which bytes are checked: from the state before a byte and the class of the byte to
//! the state after it.
ghost use Rattle.std.specs.Prelude.{◌≡◌, ◌≤◌, MatchOption};
ghost use Rattle.wtf8_core.specs.Table.{state_at, class_at, next_at};

use Class::*;
use State::*;

/// What there is between the last whole form and the next byte: nothing, or an open sequence.
#[derive(Clone, Copy)]
pub(crate) enum State {
    /// Nothing, and no high surrogate directly before.
    Between,
    /// Nothing, directly after a high surrogate.
    AfterHigh,
    /// A sequence that any one continuation completes to a form, not that of a high surrogate.
    OneMore,
    /// A sequence that any two continuations complete to such a form.
    TwoMore,
    /// E0, which is overlong if a continuation up to 9F comes next.
    AfterE0,
    /// ED, which becomes a surrogate if a continuation from A0 on comes next.
    AfterEd,
    /// ED directly after a high surrogate, where low ones are rejected.
    HighThenEd,
    /// A sequence that any one continuation completes to the form of a high surrogate.
    LastOfHigh,
    /// F0, which is overlong if a continuation up to 8F comes next.
    AfterF0,
    /// F1 to F3.
    AfterF1,
    /// F4, which is past the last code point if a continuation from 90 on comes next.
    AfterF4,
    /// F5 to FF, which begin no form.
    AfterF5,
    /// A sequence that is rejected after two more continuations.
    BadLastTwo,
    /// A sequence of four bytes that is rejected after its last continuation.
    BadFourth,
    /// The byte was rejected.
    Refused,
    /// A sequence of three bytes that is rejected after its last continuation.
    BadThird,
}

/// A class of bytes that every state treats alike: from the byte that the class is named after up
/// to the next class.
#[derive(Clone, Copy)]
pub(crate) enum Class {
    Ascii,
    Low80,
    Low90,
    LowA0,
    LowB0,
    Stray,
    LeadC2,
    LeadE0,
    LeadE1,
    LeadEd,
    LeadEe,
    LeadF0,
    LeadF1,
    LeadF4,
    LeadF5,
}

/// The state with an index in the table, or `None` if there is none.
#[tactic(auto, unfolding(crate::specs::Table::state_at))]
pub(crate) fn state_at(index: u8) -> Option<State>
    ensures { MatchOption result (16 ≤ index) (λ state. state ≡ state_at index) }
{
    let index = index as usize;
    if index < 16 {
        Some(STATES[index])
    } else {
        None
    }
}

/// The class of a byte.
#[tactic(auto, unfolding(crate::specs::Table::class_at))]
#[inline(always)]
pub(crate) fn class_at(byte: u8) -> Class
    ensures { result ≡ class_at byte }
{
    CLASSES[byte as usize]
}

/// The state after a byte of a class.
#[tactic(auto, unfolding(crate::specs::Table::next_at))]
#[inline(always)]
pub(crate) fn next_at(state: State, class: Class) -> State
    ensures { result ≡ next_at state class }
{
    NEXT[state as usize][class as usize]
}

/// The states in the order of their indices.
static STATES: [State; 16] = [
    Between, AfterHigh, OneMore, TwoMore, AfterE0, AfterEd, HighThenEd, LastOfHigh, AfterF0,
    AfterF1, AfterF4, AfterF5, BadLastTwo, BadFourth, Refused, BadThird,
];

/// The class of each byte.
static CLASSES: [Class; 256] = [
    Ascii, Ascii, Ascii, Ascii, Ascii, Ascii, Ascii, Ascii, Ascii, Ascii, Ascii, Ascii, Ascii,
    Ascii, Ascii, Ascii, Ascii, Ascii, Ascii, Ascii, Ascii, Ascii, Ascii, Ascii, Ascii, Ascii,
    Ascii, Ascii, Ascii, Ascii, Ascii, Ascii, Ascii, Ascii, Ascii, Ascii, Ascii, Ascii, Ascii,
    Ascii, Ascii, Ascii, Ascii, Ascii, Ascii, Ascii, Ascii, Ascii, Ascii, Ascii, Ascii, Ascii,
    Ascii, Ascii, Ascii, Ascii, Ascii, Ascii, Ascii, Ascii, Ascii, Ascii, Ascii, Ascii, Ascii,
    Ascii, Ascii, Ascii, Ascii, Ascii, Ascii, Ascii, Ascii, Ascii, Ascii, Ascii, Ascii, Ascii,
    Ascii, Ascii, Ascii, Ascii, Ascii, Ascii, Ascii, Ascii, Ascii, Ascii, Ascii, Ascii, Ascii,
    Ascii, Ascii, Ascii, Ascii, Ascii, Ascii, Ascii, Ascii, Ascii, Ascii, Ascii, Ascii, Ascii,
    Ascii, Ascii, Ascii, Ascii, Ascii, Ascii, Ascii, Ascii, Ascii, Ascii, Ascii, Ascii, Ascii,
    Ascii, Ascii, Ascii, Ascii, Ascii, Ascii, Ascii, Ascii, Ascii, Ascii, Ascii, Low80, Low80,
    Low80, Low80, Low80, Low80, Low80, Low80, Low80, Low80, Low80, Low80, Low80, Low80, Low80,
    Low80, Low90, Low90, Low90, Low90, Low90, Low90, Low90, Low90, Low90, Low90, Low90, Low90,
    Low90, Low90, Low90, Low90, LowA0, LowA0, LowA0, LowA0, LowA0, LowA0, LowA0, LowA0, LowA0,
    LowA0, LowA0, LowA0, LowA0, LowA0, LowA0, LowA0, LowB0, LowB0, LowB0, LowB0, LowB0, LowB0,
    LowB0, LowB0, LowB0, LowB0, LowB0, LowB0, LowB0, LowB0, LowB0, LowB0, Stray, Stray, LeadC2,
    LeadC2, LeadC2, LeadC2, LeadC2, LeadC2, LeadC2, LeadC2, LeadC2, LeadC2, LeadC2, LeadC2, LeadC2,
    LeadC2, LeadC2, LeadC2, LeadC2, LeadC2, LeadC2, LeadC2, LeadC2, LeadC2, LeadC2, LeadC2, LeadC2,
    LeadC2, LeadC2, LeadC2, LeadC2, LeadC2, LeadE0, LeadE1, LeadE1, LeadE1, LeadE1, LeadE1, LeadE1,
    LeadE1, LeadE1, LeadE1, LeadE1, LeadE1, LeadE1, LeadEd, LeadEe, LeadEe, LeadF0, LeadF1, LeadF1,
    LeadF1, LeadF4, LeadF5, LeadF5, LeadF5, LeadF5, LeadF5, LeadF5, LeadF5, LeadF5, LeadF5, LeadF5,
    LeadF5,
];

/// A row of the table for a state in which a sequence is open: the states after a continuation from
/// 80, 90, A0 and B0 on. Any other byte is rejected.
macro_rules! open {
    ($low80:ident, $low90:ident, $low_a0:ident, $low_b0:ident) => {
        [
            Refused, $low80, $low90, $low_a0, $low_b0, Refused, Refused, Refused, Refused, Refused,
            Refused, Refused, Refused, Refused, Refused, Refused,
        ]
    };
}

/// The state after a byte. Its row is that of the state before the byte, named in the comment above
/// the row; its column is that of the byte's class, in the order of [`Class`]. The last column
/// belongs to no class, and makes a row 16 long.
static NEXT: [[State; 16]; 16] = [
    // Between
    [
        Between, Refused, Refused, Refused, Refused, Refused, OneMore, AfterE0, TwoMore, AfterEd,
        TwoMore, AfterF0, AfterF1, AfterF4, AfterF5, Refused,
    ],
    // AfterHigh
    [
        Between, Refused, Refused, Refused, Refused, Refused, OneMore, AfterE0, TwoMore,
        HighThenEd, TwoMore, AfterF0, AfterF1, AfterF4, AfterF5, Refused,
    ],
    // OneMore
    open!(Between, Between, Between, Between),
    // TwoMore
    open!(OneMore, OneMore, OneMore, OneMore),
    // AfterE0
    open!(BadThird, BadThird, OneMore, OneMore),
    // AfterEd
    open!(OneMore, OneMore, LastOfHigh, OneMore),
    // HighThenEd
    open!(OneMore, OneMore, LastOfHigh, BadThird),
    // LastOfHigh
    open!(AfterHigh, AfterHigh, AfterHigh, AfterHigh),
    // AfterF0
    open!(BadLastTwo, TwoMore, TwoMore, TwoMore),
    // AfterF1
    open!(TwoMore, TwoMore, TwoMore, TwoMore),
    // AfterF4
    open!(TwoMore, BadLastTwo, BadLastTwo, BadLastTwo),
    // AfterF5
    open!(BadLastTwo, BadLastTwo, BadLastTwo, BadLastTwo),
    // BadLastTwo
    open!(BadFourth, BadFourth, BadFourth, BadFourth),
    // BadFourth
    open!(Refused, Refused, Refused, Refused),
    // Refused
    open!(Refused, Refused, Refused, Refused),
    // BadThird
    open!(Refused, Refused, Refused, Refused),
];
