//! The named classes of POSIX.
ghost use Rattle.std.specs.Prelude.{◌≡◌};
ghost use Rattle.wildcards.specs.ClassName.{all_names, name_text, name_ranges};

use crate::range::Range;

/// A named class of POSIX, over ASCII.
#[derive(Clone, Copy)]
pub enum ClassName {
    /// Letters and digits.
    Alnum,
    /// Letters.
    Alpha,
    /// Tab and blank.
    Blank,
    /// Control characters.
    Cntrl,
    /// Digits.
    Digit,
    /// What is printed, except the blank.
    Graph,
    /// Small letters.
    Lower,
    /// What is printed.
    Print,
    /// What is printed, except the blank, letters and digits.
    Punct,
    /// Tab, line feed, vertical tab, form feed, carriage return and blank.
    Space,
    /// Capitals.
    Upper,
    /// Hexadecimal digits.
    Xdigit,
}

/// A list of ranges, each from its first to its last.
macro_rules! ranges {
    ($($first:literal to $last:literal),*) => {
        [$(Range { first: $first, last: $last }),*]
    };
}

const ALNUM: [Range; 3] = ranges!(0x30 to 0x39, 0x41 to 0x5A, 0x61 to 0x7A);

const ALPHA: [Range; 2] = ranges!(0x41 to 0x5A, 0x61 to 0x7A);

const BLANK: [Range; 2] = ranges!(0x9 to 0x9, 0x20 to 0x20);

const CNTRL: [Range; 2] = ranges!(0x0 to 0x1F, 0x7F to 0x7F);

const DIGIT: [Range; 1] = ranges!(0x30 to 0x39);

const GRAPH: [Range; 1] = ranges!(0x21 to 0x7E);

const LOWER: [Range; 1] = ranges!(0x61 to 0x7A);

const PRINT: [Range; 1] = ranges!(0x20 to 0x7E);

const PUNCT: [Range; 4] = ranges!(0x21 to 0x2F, 0x3A to 0x40, 0x5B to 0x60, 0x7B to 0x7E);

const SPACE: [Range; 2] = ranges!(0x9 to 0xD, 0x20 to 0x20);

const UPPER: [Range; 1] = ranges!(0x41 to 0x5A);

const XDIGIT: [Range; 3] = ranges!(0x30 to 0x39, 0x41 to 0x46, 0x61 to 0x66);

const ALL: [ClassName; 12] = [
    ClassName::Alnum,
    ClassName::Alpha,
    ClassName::Blank,
    ClassName::Cntrl,
    ClassName::Digit,
    ClassName::Graph,
    ClassName::Lower,
    ClassName::Print,
    ClassName::Punct,
    ClassName::Space,
    ClassName::Upper,
    ClassName::Xdigit,
];

impl ClassName {
    /// All names, in the order of the alphabet.
    ///
    /// ```
    /// use wildcards::ClassName;
    ///
    /// assert_eq!(rt; ClassName::all().len(), 12);
    /// ```
    pub fn all() -> &'static [ClassName]
        ensures { result.now ≡ all_names }
    {
        &ALL
    }

    /// The name, with what closes it.
    ///
    /// ```
    /// use wildcards::ClassName;
    ///
    /// assert_eq!(rt; ClassName::Digit.text(), b"digit:]".as_slice());
    /// ```
    pub fn text(self) -> &'static [u8]
        ensures { result.now ≡ name_text self }
    {
        match self {
            ClassName::Alnum => b"alnum:]",
            ClassName::Alpha => b"alpha:]",
            ClassName::Blank => b"blank:]",
            ClassName::Cntrl => b"cntrl:]",
            ClassName::Digit => b"digit:]",
            ClassName::Graph => b"graph:]",
            ClassName::Lower => b"lower:]",
            ClassName::Print => b"print:]",
            ClassName::Punct => b"punct:]",
            ClassName::Space => b"space:]",
            ClassName::Upper => b"upper:]",
            ClassName::Xdigit => b"xdigit:]",
        }
    }

    /// Its letters.
    ///
    /// ```
    /// use wildcards::ClassName;
    ///
    /// let digits = ClassName::Digit.ranges()[0];
    /// assert!(rt; digits.first == 0x30 && digits.last == 0x39);
    /// ```
    pub fn ranges(self) -> &'static [Range]
        ensures { result.now ≡ name_ranges self }
    {
        match self {
            ClassName::Alnum => &ALNUM,
            ClassName::Alpha => &ALPHA,
            ClassName::Blank => &BLANK,
            ClassName::Cntrl => &CNTRL,
            ClassName::Digit => &DIGIT,
            ClassName::Graph => &GRAPH,
            ClassName::Lower => &LOWER,
            ClassName::Print => &PRINT,
            ClassName::Punct => &PUNCT,
            ClassName::Space => &SPACE,
            ClassName::Upper => &UPPER,
            ClassName::Xdigit => &XDIGIT,
        }
    }
}
