//! What becomes of the items that are rejected.
ghost use Rattle.std.specs.Prelude.{◌≡◌, ◌<◌, ◌≤◌, ◌+◌, ◌-◌, ◌^◌, min, ℕ, true, false};
ghost use Rattle.list_programs.specs.declared.rejections.KeepGoing.{KeepGoing};

use crate::fault::{ItemRejection, ListFault};
use os_quote::{Escaped, escaped_line};
use os_str_bytes::{OsStr, Unix};
use std::fmt;
use std::fmt::Display as _;
use std::io::Eprint;

/// What becomes of an item that is rejected for an `F`.
pub trait Rejections<F> {
    // how many items have been passed over
    ghost passed: { Self → ℕ };

    // an item that is rejected may end the run
    ghost stops: { Type 0 };

    /// Whether this item, which has this number, is passed over, so that the run goes on. Otherwise
    /// the run ends at it.
    ///
    /// ```
    /// use paths_commands::fault::Rejection;
    /// use list_programs::rejections::{Rejections, Stop};
    ///
    /// assert!(rt; !Stop.passes(2, b"../c", Rejection::NoNormalForm));
    /// ```
    fn passes(&mut self, number: u64, item: &[u8], why: F) -> bool
        ensures more { passed self.old ≤ passed self.new }
        ensures some { result ≡ true → 0 < passed self.new }
        ensures one { result ≡ true → passed self.new ≡ min (passed self.old + 1) (2 ^ 64 - 1) }
        ensures none { result ≡ false → passed self.new ≡ passed self.old }
        ensures ends { result ≡ false → stops };
}

/// The first item that is rejected ends the run.
#[derive(Clone, Copy)]
pub struct Stop;

impl<F: Copy> Rejections<F> for Stop {
    ghost passed = { λ _. 0 };

    ghost stops = { Unit {0} };

    fn passes(&mut self, _number: u64, _item: &[u8], _why: F) -> bool {
        false
    }
}

/// Items that are rejected are passed over and counted. For each a line is printed: the program's
/// name, the text of [`ListFault::Rejected`] and the item's escape, with `: ` between them. The
/// escape is that of a Unix string ([`os_quote::escaped_line`]). A line that can't be printed is
/// left out.
#[derive(Drop)]
pub struct KeepGoing<'a, P> {
    program: &'static str,
    errors: &'a P,
    count: u64,
}

impl<'a, P: Eprint> KeepGoing<'a, P> {
    /// No item has been passed over yet. The lines begin with the name of this program, and are
    /// printed by `errors`.
    ///
    /// ```
    /// use list_programs::rejections::KeepGoing;
    ///
    /// assert_eq!(rt; KeepGoing::new("paths", &rt).count(), 0);
    /// ```
    pub fn new(program: &'static str, errors: &'a P) -> KeepGoing<'a, P>
        ensures { result.count ≡ 0 }
    {
        KeepGoing {
            program,
            errors,
            count: 0,
        }
    }

    /// How many items have been passed over, or 2^64 - 1 where that is less.
    ///
    /// ```
    /// use paths_commands::fault::Rejection;
    /// use list_programs::rejections::{KeepGoing, Rejections};
    ///
    /// let mut rejections = KeepGoing::new("paths", &rt);
    /// assert!(rt; rejections.passes(2, b"../c", Rejection::NoNormalForm));
    /// assert_eq!(rt; rejections.count(), 1);
    /// ```
    pub fn count(&self) -> u64
        ensures { result ≡ self.now.count }
    {
        self.count
    }
}

impl<'a, F: ItemRejection, P: Eprint> Rejections<F> for KeepGoing<'a, P> {
    ghost passed = { λ going. going.count };

    ghost stops = { ⊥ };

    fn passes(&mut self, number: u64, item: &[u8], why: F) -> bool {
        let line = Line {
            program: self.program,
            fault: ListFault::Rejected(number, why),
            item: escaped_line(OsStr::from_encoded_bytes_unchecked(item)),
        };
        let _ = self.errors.eprintln(line);
        self.count = self.count.saturating_add(1);
        true
    }
}

/// The line that is printed for an item.
#[derive(Clone, Copy)]
struct Line<'a, F> {
    program: &'static str,
    fault: ListFault<F>,
    item: Escaped<'a, Unix>,
}

impl<'a, F: ItemRejection> fmt::Display for Line<'a, F> {
    fn fmt<W: fmt::Write>(&self, f: &mut fmt::Formatter<W>) -> fmt::Result {
        f.write_str(self.program)?;
        f.write_str(": ")?;
        self.fault.fmt(f)?;
        f.write_str(": ")?;
        self.item.fmt(f)
    }
}
