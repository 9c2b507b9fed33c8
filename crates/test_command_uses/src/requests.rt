//! Requests of the program for names: what options and operands make up, and how lists are written.
ghost use Rattle.std.specs.Prelude.{◌≡◌, [], true, false, ◌↔◌, IsTrue, IfErr, IfOk, IfSome, map, string_bytes};
ghost use Rattle.list_programs.specs.Arguments.{AreValues, HasOption, text_of};
ghost use Rattle.program_frame.specs.declared.os.Os.{Os};
ghost use Rattle.names_commands.specs.Command.{HasOperands, IsRequestFor, OptionsMatch, Requested};
ghost use Rattle.test_command_uses.specs.OneFile.{usual};
ghost use Rattle.names_commands.specs.declared.command.Name.{Name};
ghost use Rattle.names_commands.specs.declared.command.RequestError.TheVariants.{Memory as NoMemory};
ghost use Rattle.names_commands.specs.declared.option.NamesOption.TheVariants.{Exclude, ExitStatus, GlobsFrom, Help, IgnoreCase, Version};

use list_programs::arguments::Given;
use list_programs::options::{ItemEnd, LastItem, ListOptions};
use names_commands::command::{Line, Request, RequestError};
use std::alloc::Allocator;

/// How the list of a request of two words is written, which no option states.
pub fn list_of_two<A: Allocator + Copy>(
    alloc: A,
    command: &str,
    platform: &str,
) -> Option<ListOptions>
    ensures { IfSome result (λ list. list ≡ usual) }
{
    let given = [Given::Operand(command), Given::Operand(platform)];
    match Request::parse(alloc, &given) {
        Ok(request) => Some(request.list),
        Err(_) => None,
    }
}

/// The bytes that end items, and whether a last item may lack its end, in either case.
pub fn ends() -> (u8, u8, bool, bool)
    ensures nul { result.0 ≡ 0 }
    ensures newline { result.1 ≡ 0x0A }
    ensures must { result.2 ≡ false }
    ensures may { result.3 ≡ true }
{
    (
        ItemEnd::Nul.byte(),
        ItemEnd::Newline.byte(),
        LastItem::MustEnd.may_lack_end(),
        LastItem::MayLackEnd.may_lack_end(),
    )
}

/// The request that options and operands make up: they are never rejected, unless an allocation fails.
pub fn known_request<'a, A: Allocator + Copy>(
    alloc: A,
    given: Line<'_, 'a>,
) -> Result<Request<'a, A>, RequestError<'a>>
    ensures { (requested : Requested) → IsRequestFor given.entry.now requested
        → IfErr result (λ error. error ≡ NoMemory) }
{
    Request::parse(alloc, given)
}

/// Whether the request that options and operands make up matches without regard to case: exactly where
/// the option for that is given.
pub fn is_case_insensitive<'a, A: Allocator + Copy>(
    alloc: A,
    given: Line<'_, 'a>,
) -> Result<bool, RequestError<'a>>
    requires help { ¬ (HasOption Help given.now) }
    requires version { ¬ (HasOption Version given.now) }
    ensures { IfOk result (λ stated. IsTrue stated ↔ HasOption IgnoreCase given.entry.now) }
{
    match Request::parse(alloc, given) {
        Ok(request) => Ok(request.case_insensitive),
        Err(error) => Err(error),
    }
}

/// Whether a run of the request that options and operands make up fails if it writes nothing: exactly
/// where the option for that is given.
pub fn has_exit_status<'a, A: Allocator + Copy>(
    alloc: A,
    given: Line<'_, 'a>,
) -> Result<bool, RequestError<'a>>
    requires help { ¬ (HasOption Help given.now) }
    requires version { ¬ (HasOption Version given.now) }
    ensures { IfOk result (λ stated. IsTrue stated ↔ HasOption ExitStatus given.entry.now) }
{
    match Request::parse(alloc, given) {
        Ok(request) => Ok(request.exit_status),
        Err(error) => Err(error),
    }
}

/// The patterns of names that the request leaves out, which options and operands make up.
pub fn excluded_globs<'a, A: Allocator + Copy>(
    alloc: A,
    given: Line<'_, 'a>,
) -> Result<Vec<String<A>, A>, RequestError<'a>>
    requires help { ¬ (HasOption Help given.now) }
    requires version { ¬ (HasOption Version given.now) }
    ensures { IfOk result
        (λ globs. AreValues Exclude given.entry.now (map string_bytes globs.items)) }
{
    match Request::parse(alloc, given) {
        Ok(request) => Ok(request.excluded),
        Err(error) => Err(error),
    }
}

/// The pattern files of the request that options and operands make up.
pub fn pattern_files<'a, A: Allocator + Copy>(
    alloc: A,
    given: Line<'_, 'a>,
) -> Result<Vec<&'a str, A>, RequestError<'a>>
    requires help { ¬ (HasOption Help given.now) }
    requires version { ¬ (HasOption Version given.now) }
    ensures { IfOk result
        (λ files. AreValues GlobsFrom given.entry.now (map text_of files.items)) }
{
    match Request::parse(alloc, given) {
        Ok(request) => Ok(request.pattern_files),
        Err(error) => Err(error),
    }
}

/// Whether the request inverts which options and operands make up that state no names that match: it
/// never does.
pub fn inverts_nothing<'a, A: Allocator + Copy>(
    alloc: A,
    given: Line<'_, 'a>,
) -> Result<bool, RequestError<'a>>
    requires operands { (command : Name) × ((os : Os) × HasOperands given.now command os []) }
    requires none { ¬ (OptionsMatch given.now) }
    requires help { ¬ (HasOption Help given.now) }
    requires version { ¬ (HasOption Version given.now) }
    ensures { IfOk result (λ inverted. ¬ (IsTrue inverted)) }
{
    match Request::parse(alloc, given) {
        Ok(request) => Ok(request.inverted),
        Err(error) => Err(error),
    }
}
