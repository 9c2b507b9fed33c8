//! Prefixes and suffixes that are strings, by units.
ghost use Rattle.std.specs.Prelude.{◌≡◌, ◌<◌, ◌↔◌, ◌⊎◌, ◌∷◌, []};
ghost use Rattle.wtf8_core.specs.Occurrence.{IsPrefix, IsSuffix};
ghost use Rattle.osbytes_c.specs.Answers.{IsOneOf};
ghost use Rattle.osbytes_c.specs.Faults.{IsString, IsUnstring};
ghost use Rattle.osbytes_c.specs.Platforms.{units_on};
ghost use Rattle.osbytes_c.specs.Statuses.{done, faulty, no_platform, none};

use crate::on_platform::on_platform;
use crate::status::{DONE, FAULTY, NONE};
use os_str_ext::OsStrBytesExt;
use platform_str::{OsStr, Platform};

/// Whether the units of a string start with those of another string of the platform.
#[unsafe(no_mangle)]
pub extern "C" fn osb_core_starts_with_units(platform: u32, bytes: &[u8], prefix: &[u8]) -> u32
    ensures found { result ≡ done → IsPrefix (units_on platform prefix.now)
        (units_on platform bytes.now) }
    ensures none { result ≡ none → ¬ (IsPrefix (units_on platform prefix.now)
        (units_on platform bytes.now)) }
    ensures strings { (result ≡ done) ⊎ (result ≡ none) → IsString platform bytes.now
        × IsString platform prefix.now }
    ensures fault { result ≡ faulty → IsUnstring platform bytes.now
        ⊎ IsUnstring platform prefix.now }
    ensures platform { (result ≡ no_platform) ↔ (2 < platform) }
    ensures answers { IsOneOf (done ∷ none ∷ faulty ∷ no_platform ∷ []) result }
{
    on_platform!(platform, starts_with(bytes, prefix))
}

/// Whether the units of a string end with those of another string of the platform.
#[unsafe(no_mangle)]
pub extern "C" fn osb_core_ends_with_units(platform: u32, bytes: &[u8], suffix: &[u8]) -> u32
    ensures found { result ≡ done → IsSuffix (units_on platform suffix.now)
        (units_on platform bytes.now) }
    ensures none { result ≡ none → ¬ (IsSuffix (units_on platform suffix.now)
        (units_on platform bytes.now)) }
    ensures strings { (result ≡ done) ⊎ (result ≡ none) → IsString platform bytes.now
        × IsString platform suffix.now }
    ensures fault { result ≡ faulty → IsUnstring platform bytes.now
        ⊎ IsUnstring platform suffix.now }
    ensures platform { (result ≡ no_platform) ↔ (2 < platform) }
    ensures answers { IsOneOf (done ∷ none ∷ faulty ∷ no_platform ∷ []) result }
{
    on_platform!(platform, ends_with(bytes, suffix))
}

/// Tests whether the units of a string start with those of another, on one platform.
fn starts_with<E: Platform>(bytes: &[u8], prefix: &[u8]) -> u32
    ensures found { result ≡ done → IsPrefix (E.units prefix.now) (E.units bytes.now) }
    ensures none { result ≡ none → ¬ (IsPrefix (E.units prefix.now) (E.units bytes.now)) }
    ensures strings { (result ≡ done) ⊎ (result ≡ none) → E.well_formed bytes.now
        × E.well_formed prefix.now }
    ensures fault { result ≡ faulty → (¬ (E.well_formed bytes.now))
        ⊎ (¬ (E.well_formed prefix.now)) }
    ensures answers { IsOneOf (done ∷ none ∷ faulty ∷ []) result }
{
    let Ok(string) = OsStr::<E>::checked(bytes) else {
        return FAULTY;
    };
    let Ok(prefix) = OsStr::<E>::checked(prefix) else {
        return FAULTY;
    };
    if string.starts_with_os(prefix) {
        DONE
    } else {
        NONE
    }
}

/// Tests whether the units of a string end with those of another, on one platform.
fn ends_with<E: Platform>(bytes: &[u8], suffix: &[u8]) -> u32
    ensures found { result ≡ done → IsSuffix (E.units suffix.now) (E.units bytes.now) }
    ensures none { result ≡ none → ¬ (IsSuffix (E.units suffix.now) (E.units bytes.now)) }
    ensures strings { (result ≡ done) ⊎ (result ≡ none) → E.well_formed bytes.now
        × E.well_formed suffix.now }
    ensures fault { result ≡ faulty → (¬ (E.well_formed bytes.now))
        ⊎ (¬ (E.well_formed suffix.now)) }
    ensures answers { IsOneOf (done ∷ none ∷ faulty ∷ []) result }
{
    let Ok(string) = OsStr::<E>::checked(bytes) else {
        return FAULTY;
    };
    let Ok(suffix) = OsStr::<E>::checked(suffix) else {
        return FAULTY;
    };
    if string.ends_with_os(suffix) {
        DONE
    } else {
        NONE
    }
}
