//! Runs of a text: how often it is repeated at the start or at the end of bytes.
ghost use Rattle.std.specs.Prelude.{◌<◌, ◌≤◌, length, take, drop};
ghost use Rattle.os_str_ext.specs.Pieces.{IsStartTrim, IsEndTrim};

use crate::needle::{ends_at, occurs_at};

/// The index at which the run of the text at the start ends.
#[inline(always)]
pub(crate) fn start_run(bytes: &[u8], text: &[u8]) -> usize
    requires { 0 < length text.now }
    ensures trim { IsStartTrim text.now bytes.now (drop result bytes.now) }
    ensures within { result ≤ length bytes.now }
{
    let mut at = 0;
    while occurs_at(bytes, text, at) {
        at += text.len();
    }
    at
}

/// The index at which the run of the text at the end starts.
#[inline(always)]
pub(crate) fn end_run(bytes: &[u8], text: &[u8]) -> usize
    requires { 0 < length text.now }
    ensures trim { IsEndTrim text.now bytes.now (take result bytes.now) }
    ensures within { result ≤ length bytes.now }
{
    let mut at = bytes.len();
    while ends_at(bytes, text, at) {
        at -= text.len();
    }
    at
}
