//! Classes of letters.
ghost use Rattle.std.specs.Prelude.{◌≡◌, ℕ};
ghost use Rattle.wildcards.specs.Ranges.{AreOrdered, IsTable};

use crate::range::{Range, in_order, is_in, one_small};
use std::alloc::{AllocError, Allocator, Global};
use std::sync::Arc;

/// What a class is made of.
#[derive(Drop)]
struct Table<A: Allocator> {
    negated: bool,
    // Their first and last letters ascend.
    ranges: Vec<Range, A>,
    // Whether it permits each letter of ASCII.
    ascii: [bool; 128],
    ghost ordered: { AreOrdered ranges.items },
    ghost table: { IsTable negated ranges.items ascii },
}

/// A class: the letters of its ranges or, if it is negated, all other letters. A clone shares its memory,
/// which is eight bytes for each range and less than 256 more.
///
/// A letter beyond ASCII takes time in proportion to the logarithm of the number of ranges.
#[derive(Drop)]
pub struct Class<A: Allocator = Global> {
    table: Arc<Table<A>, A>,
}

impl<A: Allocator> Class<A> {
    ghost use Rattle.std.specs.Char.{to_ascii_lowercase};
    ghost use Rattle.std.specs.Prelude.{◌<◌, IfOk, IfSome, IsTrue};
    ghost use Rattle.wildcards.specs.Ranges.{permits};
    ghost use Rattle.wildcards.specs.Classes.{permitted};

    /// The class of these ranges.
    ///
    /// # Errors
    ///
    /// `AllocError` if memory is refused.
    ///
    /// ```
    /// use wildcards::{Class, Range};
    ///
    /// let mut ranges = Vec::new(alloc);
    /// ranges.push(Range { first: 0x61, last: 0x7A })?;
    /// assert!(rt; Class::new(alloc, false, ranges)?.permits(0x62));
    /// ```
    pub fn new(alloc: A, negated: bool, ranges: Vec<Range, A>) -> Result<Self, AllocError>
    where
        A: Copy,
        ensures { IfOk result (λ class. (letter : ℕ) → permitted class letter
            ≡ permits negated ranges.items letter) }
    {
        let ordered = in_order(ranges);
        let mut ascii = [false; 128];
        let mut at = 0;
        while at < 128 {
            ascii[at] = is_in(&ordered, at as u32) != negated;
            at += 1;
        }
        let table = Table {
            negated,
            ranges: ordered,
            ascii,
        };
        Ok(Class {
            table: Arc::new(alloc, table)?,
        })
    }

    /// Whether it permits a letter.
    ///
    /// ```
    /// use wildcards::{Class, Range};
    ///
    /// let mut ranges = Vec::new(alloc);
    /// ranges.push(Range { first: 0x61, last: 0x7A })?;
    /// let class = Class::new(alloc, true, ranges)?;
    /// assert!(rt; class.permits(0xE9) && !class.permits(0x61));
    /// ```
    #[inline(always)]
    pub fn permits(&self, letter: u32) -> bool
        ensures { result ≡ permitted self.now letter }
    {
        if letter < 128 {
            return self.table.ascii[letter as usize];
        }
        is_in(&self.table.ranges, letter) != self.table.negated
    }

    /// The small letter of all letters of ASCII that it permits, if they have one.
    pub(crate) fn only_small(&self) -> Option<u32>
        ensures { IfSome result (λ small. (letter : ℕ) → letter < 0x80
            → IsTrue (permitted self.now letter) → to_ascii_lowercase letter ≡ small) }
    {
        if self.table.negated {
            return None;
        }
        one_small(&self.table.ranges)
    }
}

impl<A: Allocator> Clone for Class<A> {
    ghost use Rattle.wildcards.specs.Classes.{AreAlike};

    ghost is_clone = { AreAlike };

    /// Clones the class, which shares its memory with the clone.
    ///
    /// # Errors
    ///
    /// `AllocError` if there are 2<sup>63</sup> clones.
    fn clone(&self) -> Result<Self, AllocError> {
        Ok(Class {
            table: Arc::try_clone(&self.table)?,
        })
    }
}
