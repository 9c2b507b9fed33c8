//! Strings of any platform, read as letters.
ghost use Rattle.glob_patterns.specs.Letters.{letters_of};
ghost use Rattle.glob_patterns.specs.Readings.{letter_laws};

use os_str_ext::Platform;
use std::marker::PhantomData;
use wildcards::Letters;
use wtf8_core::first_character::first_char;

/// The letters of a string: the code points of its characters and, above them, its units.
pub struct StringLetters<E: Platform> {
    platform: PhantomData<E>,
}

impl<E: Platform> Letters for StringLetters<E> {
    ghost formed = { E.well_formed };

    ghost letters = { letters_of E.units };

    // It isn't inlined, so that the loops that call it, which read ASCII themselves, are small:
    // letters of ASCII take 0.85 to 0.93 of the time.
    #[inline(never)]
    fn split_first(bytes: &[u8]) -> (u32, &[u8]) {
        let Some((character, size)) = first_char(bytes) else {
            let (unit, size) = E::first_unit(bytes);
            let (_, rest) = bytes.split_at(size);
            return (0x11_0000 + u32::from(unit), rest);
        };
        let (_, rest) = bytes.split_at(size);
        (u32::from(character), rest)
    }

    ghost laws = { letter_laws E.laws E.parts E.occurrence };
}
