//! Command lines of Windows, read and written.
ghost use Rattle.wtf8_core.specs.Wtf8.{IsWtf8};

use os_command_line::windows::{Arguments, command_line, push_argument};
use platform_str::windows::OsStr;
use std::alloc::Global;

/// Reads a command line, and returns the sum of the units of its name and its arguments, modulo
/// 2^64, which is turned by 31 before each argument.
#[unsafe(no_mangle)]
pub extern "C" fn port_arguments(line: &[u8]) -> u64
    requires { IsWtf8 line.now }
{
    let arguments = Arguments::new(OsStr::from_encoded_bytes_unchecked(line));
    let mut sum: u64 = 0;
    for unit in arguments.program().units() {
        sum = sum.wrapping_add(u64::from(unit));
    }
    for argument in arguments {
        sum = sum.wrapping_mul(31);
        for unit in argument.units() {
            sum = sum.wrapping_add(u64::from(unit));
        }
    }
    sum
}

/// Returns the number of units of the text of an argument, once it is in a vector; `usize::MAX` if
/// it is rejected.
#[unsafe(no_mangle)]
pub extern "C" fn port_push_argument(alloc: Global, argument: &[u8]) -> usize
    requires { IsWtf8 argument.now }
{
    let mut line = Vec::new(alloc);
    match push_argument(&mut line, OsStr::from_encoded_bytes_unchecked(argument)) {
        Ok(()) => line.len(),
        Err(_) => usize::MAX,
    }
}

/// Returns the number of units of the command line of a program with three arguments; `usize::MAX`
/// if it is rejected.
#[unsafe(no_mangle)]
pub extern "C" fn port_command_line(
    alloc: Global,
    program: &[u8],
    first: &[u8],
    second: &[u8],
    third: &[u8],
) -> usize
    requires program { IsWtf8 program.now }
    requires first { IsWtf8 first.now }
    requires second { IsWtf8 second.now }
    requires third { IsWtf8 third.now }
{
    let arguments = [
        OsStr::from_encoded_bytes_unchecked(first),
        OsStr::from_encoded_bytes_unchecked(second),
        OsStr::from_encoded_bytes_unchecked(third),
    ];
    let program = OsStr::from_encoded_bytes_unchecked(program);
    match command_line(alloc, program, arguments.as_slice()) {
        Ok(line) => line.len(),
        Err(_) => usize::MAX,
    }
}
