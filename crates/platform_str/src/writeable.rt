//! Texts that are written piece by piece, filled to the width of a formatter.
ghost use Rattle.std.specs.Prelude.{◌≡◌, ◌-◌, ◌≤◌, ℕ, List, IfOk};
ghost use Rattle.std.specs.{Char.encode_utf8, List.repeat};
ghost use Rattle.std.specs.Fmt.{WritesOnOk, WritesStyledOnOk, char_count, formatter_spec, is_char_start, spec_align, spec_fill, spec_width};
ghost use Rattle.platform_str.specs.Display.{fill_before, filled};

use std::fmt;

/// A text that is written piece by piece, without allocating (own trait).
///
/// [`write_filled`] writes such a text to the width that a formatter has.
pub trait Writeable {
    /// The text.
    ghost text: { Self → List ℕ };

    /// Writes the text without padding, whatever width the formatter has. It is for a `Display`
    /// that prints a text between other words.
    ///
    /// ```
    /// use os_str_bytes::{OsStr, OsStrDisplay, Unix, Writeable};
    /// use std::fmt;
    ///
    /// #[derive(Drop)]
    /// struct Quoted<'a>(OsStrDisplay<'a, Unix>);
    ///
    /// impl<'a> fmt::Display for Quoted<'a> {
    ///     fn fmt<W: fmt::Write>(&self, f: &mut fmt::Formatter<W>) -> fmt::Result {
    ///         f.write_str("'")?;
    ///         self.0.write_to(f)?;
    ///         f.write_str("'")
    ///     }
    /// }
    ///
    /// let quoted = Quoted(OsStr::new("a").display());
    /// assert_eq!(rt; format!(in alloc; "{quoted:9}")?.as_str(), "'a'");
    /// ```
    fn write_to<W: fmt::Write>(&self, f: &mut fmt::Formatter<W>) -> fmt::Result
    where
        Self: Sized,
        ensures { WritesStyledOnOk W.write_str_gives f.old result (text self.now) f.new };
}

/// Writes a text, filled to the width that the formatter has (own call). It is like std's
/// `Formatter::pad`, which needs a `str`. A width counts characters, and padding comes after the
/// text if no alignment is given. A precision doesn't truncate.
///
/// ```
/// use os_str_bytes::{OsStr, OsStrDisplay, Unix, Writeable, write_filled};
/// use std::fmt;
///
/// #[derive(Drop)]
/// struct Name<'a>(OsStrDisplay<'a, Unix>);
///
/// impl<'a> fmt::Display for Name<'a> {
///     fn fmt<W: fmt::Write>(&self, f: &mut fmt::Formatter<W>) -> fmt::Result {
///         write_filled(&self.0, f)
///     }
/// }
///
/// let name = Name(OsStr::new("a").display());
/// assert_eq!(rt; format!(in alloc; "{name:*>3}")?.as_str(), "**a");
/// ```
pub fn write_filled<T: Writeable, W: fmt::Write>(text: &T, f: &mut fmt::Formatter<W>) -> fmt::Result
    ensures plain { WritesOnOk W.write_str_gives f.old result (T.text text.now) f.new }
    ensures filled { WritesStyledOnOk W.write_str_gives f.old result
        (filled (spec_fill (formatter_spec f.old)) (spec_align (formatter_spec f.old))
        (spec_width (formatter_spec f.old)) (T.text text.now)) f.new }
{
    match f.width() {
        None => text.write_to(f),
        Some(width) => {
            let padding = padding_to(width, text)?;
            let before = fill_before(f.align(), padding);
            write_fill(before, f)?;
            text.write_to(f)?;
            write_fill(padding - before, f)
        }
    }
}

/// Returns the number of characters that a text is short of a width.
fn padding_to<T: Writeable>(width: usize, text: &T) -> Result<usize, fmt::Error>
    ensures { IfOk result (λ padding. padding ≡ width - char_count (T.text text.now)) }
{
    let mut counter = fmt::Formatter::new(Shortfall { left: width });
    text.write_to(&mut counter)?;
    Ok(counter.into_inner().left)
}

/// The number of characters that are left up to a width, after what was written to it.
#[derive(Drop)]
struct Shortfall {
    left: usize,
}

impl fmt::Write for Shortfall {
    ghost write_str_gives = { λ before text after. after.left ≡ before.left - char_count text };

    fn write_str(&mut self, text: &str) -> fmt::Result {
        let mut rest = text.as_bytes();
        while let Some((first, after)) = rest.split_first() {
            self.left = self.left.saturating_sub(usize::from(is_char_start(*first)));
            rest = after;
        }
        Ok(())
    }
}

/// How much of the padding comes before the text.
fn fill_before(align: Option<fmt::Alignment>, padding: usize) -> usize
    ensures value { result ≡ fill_before align padding }
    ensures within { result ≤ padding }
{
    match align {
        Some(fmt::Alignment::Right) => padding,
        Some(fmt::Alignment::Center) => padding / 2,
        Some(fmt::Alignment::Left) | None => 0,
    }
}

/// Writes the fill character `count` times.
fn write_fill<W: fmt::Write>(count: usize, f: &mut fmt::Formatter<W>) -> fmt::Result
    ensures { WritesStyledOnOk W.write_str_gives f.old result
        (repeat count (encode_utf8 (spec_fill (formatter_spec f.old)))) f.new }
{
    let mut buffer = [0; 4];
    let fill = f.fill().encode_utf8(&mut buffer);
    f.write_repeated(fill, count)
}

/// Whether a byte of a text begins a character.
fn is_char_start(byte: u8) -> bool
    ensures { result ≡ is_char_start byte }
{
    byte < 0x80 || byte >= 0xC0
}
