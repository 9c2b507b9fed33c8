//! Whose rules the paths of a platform follow.
ghost use Rattle.std.specs.Prelude.{◌≡◌};
ghost use Rattle.path_rules.specs.declared.rules.Style.TheVariants as whose_is;

use path_rules::Style;
use platform_str::{Platform, Unix, Wasm, Windows};

/// A platform whose paths have rules.
///
/// A platform of one's own takes three lines: the member `follows`, the call, and its result.
pub trait PathStyle: Platform {
    ghost use Rattle.path_rules.specs.declared.rules.Style as whose;

    // whose rules its paths follow
    ghost follows: { whose.Style };

    /// Whose rules the paths of the platform follow (own call).
    ///
    /// ```
    /// use os_path::{PathStyle, Style};
    /// use platform_str::{Unix, Wasm, Windows};
    ///
    /// assert!(rt; Unix::style() == Style::Unix && Wasm::style() == Style::Unix);
    /// assert!(rt; Windows::style() == Style::Windows);
    /// ```
    fn style() -> Style
        ensures { result ≡ follows };
}

impl PathStyle for Unix {
    ghost follows = { whose_is.Unix };

    fn style() -> Style {
        Style::Unix
    }
}

impl PathStyle for Windows {
    ghost follows = { whose_is.Windows };

    fn style() -> Style {
        Style::Windows
    }
}

impl PathStyle for Wasm {
    ghost follows = { whose_is.Unix };

    fn style() -> Style {
        Style::Unix
    }
}
