//! Where a reader of units is.
ghost use Rattle.std.specs.Prelude.{◌≡◌};
ghost use Rattle.os_command_line.specs.WindowsReader.{place};
ghost use Rattle.os_command_line.specs.WindowsSteps.{EndsWithRun, IsAtQuote};

/// In a program's name or in an argument, right after a quotation mark that closes a part or not,
/// and inside quotation marks or not.
#[derive(Clone, Copy)]
pub(crate) struct Place {
    pub(crate) in_name: bool,
    pub(crate) closing: bool,
    pub(crate) inside: bool,
}

impl Place {
    /// How many of the bytes before a quotation mark mean themselves, whether the mark does, and
    /// where the reader is after it.
    pub(crate) fn at_quote(self, before: &[u8]) -> (usize, bool, Place)
        ensures { IsAtQuote self before.now result.0 result.1 result.2 }
    {
        if self.closing && before.is_empty() {
            return (0, true, Place::after(false, false, true));
        }
        if self.in_name {
            return (before.len(), false, Place::after(true, false, !self.inside));
        }
        let run = last_backslashes(before);
        let len = before.len() - run + run / 2;
        if run % 2 == 1 {
            return (len, true, Place::after(false, false, self.inside));
        }
        (len, false, Place::after(false, self.inside, !self.inside))
    }

    /// The place with these fields.
    #[inline(always)]
    pub(crate) fn after(in_name: bool, closing: bool, inside: bool) -> Place
        ensures { result ≡ place in_name closing inside }
    {
        Place {
            in_name,
            closing,
            inside,
        }
    }
}

/// With how many backslashes a text ends.
pub(crate) fn last_backslashes(text: &[u8]) -> usize
    ensures { EndsWithRun text.now result }
{
    let mut count = 0;
    let mut rest = text;
    while let Some((last, before)) = rest.split_last() {
        if *last != b'\\' {
            return count;
        }
        count += 1;
        rest = before;
    }
    count
}
