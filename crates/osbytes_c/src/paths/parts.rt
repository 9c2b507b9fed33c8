//! The components of a path, by their indices.
ghost use Rattle.std.specs.Prelude.{◌≡◌, ◌+◌, ◌≤◌, ◌<◌, ◌^◌, ◌++◌, ◌∷◌, [], ℕ, List, true, length, slice_index, IfSome, MatchOption};
ghost use Rattle.std.specs.List.{cons_option};
ghost use Rattle.path_rules.specs.Separators.{separates, IsPlainBelow, IsField};
ghost use Rattle.osbytes_c.specs.PathParts.{IsLastName, HasNoLastName, IsLastOf, part_named, parts_in, start_parts, prefix_parts, part_of};
ghost use Rattle.osbytes_c.specs.PartBuffers.{PushesPart};
ghost use Rattle.osbytes_c.specs.PathSpans.{WritesParts};

use crate::paths::part_list::{Part, kind_number, push};
use path_rules::parts::{Start, component_of, head_of};
use path_rules::{Rules, Style};

/// The index of the first separator, or the length if there is none. (`path_rules` has such a
/// function, too, which isn't public.)
fn first_separator(rules: Rules, body: &[u8]) -> usize
    ensures within { result ≤ length body.now }
    ensures plain { IsPlainBelow rules body.now result }
    ensures separator { result < length body.now
        → separates rules (slice_index body.now result) ≡ true }
{
    let mut at = 0;
    while at < body.len() && !rules.is_separator(body[at]) {
        at += 1;
    }
    at
}

/// What comes before the first separator, and what follows from there on.
fn split_part(rules: Rules, body: &[u8]) -> (&[u8], &[u8])
    ensures { IsField rules body.now result.0.now result.1.now }
{
    body.split_at(first_separator(rules, body))
}

/// Appends what the bytes between two separators name.
fn push_part(rules: Rules, part: &[u8], at: usize, out: &mut [Part], count: usize) -> usize
    requires room { count + 1 < 2 ^ 64 }
    requires within { at + length part.now < 2 ^ 64 }
    ensures pushes { PushesPart (cons_option (part_named rules at part.now) []) out.old count
        out.new result }
    ensures count { result ≤ count + 1 }
{
    let Some(component) = component_of(rules, part) else {
        return count;
    };
    let named = Part {
        kind: kind_number(component),
        start: at,
        end: at + part.len(),
    };
    push(out, count, named)
}

/// Appends the components of bytes that begin at an index.
fn push_body(rules: Rules, body: &[u8], at: usize, out: &mut [Part], count: usize) -> usize
    requires within { at + length body.now + 3 < 2 ^ 64 }
    requires few { count ≤ at + 2 }
    ensures { PushesPart (parts_in rules at body.now) out.old count out.new result }
{
    let mut left = body;
    let mut from = at;
    let mut written = count;
    loop {
        let (part, rest) = split_part(rules, left);
        written = push_part(rules, part, from, out, written);
        let [_, more @ ..] = rest else {
            return written;
        };
        from += part.len() + 1;
        left = more;
    }
}

/// Appends a prefix, if there is one, to no components.
fn push_prefix(prefix: &[u8], out: &mut [Part]) -> usize
    ensures pushes { PushesPart (prefix_parts (length prefix.now)) out.old 0 out.new result }
    ensures count { result ≤ 1 }
{
    let len = prefix.len();
    if len == 0 {
        return 0;
    }
    let named = Part {
        kind: 1,
        start: 0,
        end: len,
    };
    push(out, 0, named)
}

/// Appends the root, or the `.` at the start, that is from an index up to another.
fn push_start(start: Start, from: usize, to: usize, out: &mut [Part], count: usize) -> usize
    requires { count + 1 < 2 ^ 64 }
    ensures pushes { PushesPart (start_parts start from to) out.old count out.new result }
    ensures count { result ≤ count + 1 }
{
    match start {
        Start::Root => push_from(2, from, to, out, count),
        Start::Dot => push_from(3, from, to, out, count),
        Start::Nothing => count,
    }
}

/// Appends a component of a kind.
fn push_from(kind: u32, start: usize, end: usize, out: &mut [Part], count: usize) -> usize
    requires { count + 1 < 2 ^ 64 }
    ensures pushes { PushesPart (part_of kind start end ∷ []) out.old count out.new result }
    ensures count { result ≡ count + 1 }
{
    push(out, count, Part { kind, start, end })
}

/// Writes the components of a path, as far as there is room, and counts them.
pub(crate) fn write_parts(style: Style, path: &[u8], out: &mut [Part]) -> usize
    ensures { WritesParts style path.now out.old out.new result }
{
    let head = head_of(style, path);
    let at = path.len() - head.body.len();
    let count = push_prefix(head.prefix, out);
    let count = push_start(head.start, head.prefix.len(), at, out, count);
    push_body(head.rules, head.body, at, out, count)
}

/// The last of some components and of what the bytes after them, between two separators, name.
fn later(rules: Rules, part: &[u8], at: usize, last: Option<Part>) -> Option<Part>
    requires { at + length part.now < 2 ^ 64 }
    ensures last { (done : List Part) → IsLastOf done last
        → IsLastOf (done ++ cons_option (part_named rules at part.now) []) result }
    ensures within { (to : ℕ) → IfSome last (λ p. (p.start ≤ p.end) × (p.end ≤ to))
        → at + length part.now ≤ to → IfSome result (λ p. (p.start ≤ p.end) × (p.end ≤ to)) }
{
    let Some(component) = component_of(rules, part) else {
        return last;
    };
    Some(Part {
        kind: kind_number(component),
        start: at,
        end: at + part.len(),
    })
}

/// The last component of bytes that begin at an index.
fn last_in_body(rules: Rules, body: &[u8], at: usize) -> Option<Part>
    requires { at + length body.now + 1 < 2 ^ 64 }
    ensures last { IsLastOf (parts_in rules at body.now) result }
    ensures within { IfSome result (λ p. (p.start ≤ p.end) × (p.end ≤ at + length body.now)) }
{
    let mut left = body;
    let mut from = at;
    let mut last = None;
    loop {
        let (part, rest) = split_part(rules, left);
        last = later(rules, part, from, last);
        let [_, more @ ..] = rest else {
            return last;
        };
        from += part.len() + 1;
        left = more;
    }
}

/// The last component of a path, if it is a name.
pub(crate) fn last_name(style: Style, path: &[u8]) -> Option<Part>
    ensures name { MatchOption result (HasNoLastName style path.now)
        (λ p. IsLastName style path.now p) }
    ensures within { IfSome result (λ p. (p.start ≤ p.end) × (p.end ≤ length path.now)) }
{
    let head = head_of(style, path);
    let at = path.len() - head.body.len();
    match last_in_body(head.rules, head.body, at) {
        Some(last) if last.kind == 5 => Some(last),
        _ => None,
    }
}
