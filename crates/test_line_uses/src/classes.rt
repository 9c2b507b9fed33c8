//! Classes of letters.
ghost use Rattle.std.specs.Prelude.{◌≡◌, ◌∷◌, [], IfOk, Some, codes, not};
ghost use Rattle.std.specs.Int.{is_in_range};
ghost use Rattle.wildcards.specs.declared.class_name.ClassName.TheVariants.{Alnum};

use std::alloc::{AllocError, Global};
use wildcards::{Class, ClassName, Range};

/// Whether a letter is a digit of ASCII.
pub fn is_digit(alloc: Global, letter: u32) -> Result<bool, AllocError>
    ensures { IfOk result (λ is. is ≡ is_in_range 0x30 0x39 letter) }
{
    let digits = digits(alloc)?;
    Ok(Class::new(alloc, false, digits)?.permits(letter))
}

/// Whether it is none.
pub fn is_no_digit(alloc: Global, letter: u32) -> Result<bool, AllocError>
    ensures { IfOk result (λ is. is ≡ not (is_in_range 0x30 0x39 letter)) }
{
    let digits = digits(alloc)?;
    Ok(Class::new(alloc, true, digits)?.permits(letter))
}

/// The one range of digits.
fn digits(alloc: Global) -> Result<Vec<Range>, AllocError>
    ensures { IfOk result (λ ranges. ranges.items ≡ record { first = 0x30; last = 0x39 } ∷ []) }
{
    let mut ranges = Vec::new(alloc);
    ranges.push(Range {
        first: 0x30,
        last: 0x39,
    })?;
    Ok(ranges)
}

/// The first name of a class.
pub fn first_name() -> Option<ClassName>
    ensures { result ≡ Some Alnum }
{
    let (first, _) = ClassName::all().split_first()?;
    Some(*first)
}

/// The name of the class of digits, as it is written.
pub fn digits_text() -> &'static [u8]
    ensures { result.now ≡ codes "digit:]" }
{
    ClassName::Digit.text()
}

/// The letters of the class of blanks.
pub fn blank_ranges() -> &'static [Range]
    ensures { result.now ≡ record { first = 0x9; last = 0x9 }
        ∷ record { first = 0x20; last = 0x20 } ∷ [] }
{
    ClassName::Blank.ranges()
}
