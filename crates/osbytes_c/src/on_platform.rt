//! One dispatch over the platforms by their numbers: 0 Unix, 1 Windows, 2 wasm.

/// What a call that is generic over the platform returns on the platform with a number, and
/// `NO_PLATFORM` if there is none.
macro_rules! on_platform {
    ($platform:expr, $call:ident($($argument:expr),*)) => {
        match $platform {
            0 => $call::<platform_str::Unix>($($argument),*),
            1 => $call::<platform_str::Windows>($($argument),*),
            2 => $call::<platform_str::Wasm>($($argument),*),
            _ => $crate::status::NO_PLATFORM,
        }
    };
}

/// The result for the string that bytes are on the platform with a number, and `NO_PLATFORM` if
/// there is none. If the bytes aren't a string of it, the result is `FAULTY` and the fault their
/// first one.
macro_rules! on_string {
    ($platform:expr, $bytes:expr, $fault:expr, $string:ident => $answer:expr) => {
        match $platform {
            0 => {
                let $string = $crate::strings::unix($bytes);
                $answer
            }
            1 => match $crate::strings::windows($bytes, $fault) {
                Some($string) => $answer,
                None => $crate::status::FAULTY,
            },
            2 => match $crate::strings::wasm($bytes, $fault) {
                Some($string) => $answer,
                None => $crate::status::FAULTY,
            },
            _ => $crate::status::NO_PLATFORM,
        }
    };
}

pub(crate) use on_platform;
pub(crate) use on_string;
