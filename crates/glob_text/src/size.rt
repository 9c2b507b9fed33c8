//! How large choices are.
ghost use Rattle.std.specs.Prelude.{◌≡◌, ◌↔◌, ◌<◌, ◌≤◌, ◌*◌, ◌⊎◌, IsTrue};
ghost use Rattle.glob_text.specs.Alternatives.{most_choices, most_marks};
ghost use Rattle.glob_text.specs.Sizes.{both_sizes, nothing_size, with_mark};

/// The largest number of patterns that one may be written out as.
const MOST_CHOICES: usize = 1024;

/// The largest number of marks that several of them may have together.
const MOST_MARKS: usize = 65_536;

/// The size of choices. Each number stops at the greatest of a word.
#[derive(Clone, Copy)]
pub(crate) struct Size {
    choices: usize,
    // The marks of all choices together.
    marks: usize,
}

impl Size {
    /// The size of one choice without marks.
    pub(crate) const fn nothing() -> Self
        ensures { result ≡ nothing_size }
    {
        Size {
            choices: 1,
            marks: 0,
        }
    }

    /// The size of both lists of choices together.
    pub(crate) fn and(self, other: Self) -> Self
        ensures { result ≡ both_sizes self other }
    {
        Size {
            choices: self.choices.saturating_add(other.choices),
            marks: self.marks.saturating_add(other.marks),
        }
    }

    /// The size of the choices with one more mark each.
    pub(crate) fn with_mark(self) -> Self
        ensures { result ≡ with_mark self }
    {
        Size {
            choices: self.choices,
            marks: self.marks.saturating_add(self.choices),
        }
    }

    /// Whether choices of this size are too many, or several with too many marks.
    pub(crate) fn is_too_large(self) -> bool
        ensures { IsTrue result ↔ ((most_choices < self.choices)
            ⊎ ((1 < self.choices) × (most_marks < self.marks))) }
    {
        self.choices > MOST_CHOICES || (self.choices > 1 && self.marks > MOST_MARKS)
    }

    /// The number of choices, or the greatest of a word.
    pub(crate) fn choices(self) -> usize
        ensures { result ≡ self.choices }
    {
        self.choices
    }

    /// The number of marks that a choice has on average: so many for each are no more than all.
    pub(crate) fn average(self) -> usize
        ensures { result * self.choices ≤ self.marks }
    {
        if self.choices == 0 {
            return 0;
        }
        self.marks / self.choices
    }
}
