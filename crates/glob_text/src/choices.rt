//! Writes out a pattern as patterns without alternatives.
//!
//! The marks are read from the last to the first. What the marks behind a place are written out as
//! is a node, which refers to other nodes. So each mark takes a constant time and adds at most one
//! node. Then the choices are read from the nodes, and each mark of a choice is read once.
ghost use Rattle.std.specs.Prelude.{◌≡◌, true, map, IfOk, MatchOption, OnOk};
ghost use Rattle.glob_text.specs.Marks.{mark_of};
ghost use Rattle.glob_text.specs.Braces.{are_balanced};
ghost use Rattle.glob_text.specs.Alternatives.{AreTooMany};
ghost use Rattle.glob_text.specs.Backwards.{choices_behind, at_end};
ghost use Rattle.glob_text.specs.Nodes.{added, comma_in, drawing_of, node_at, open_in, with_found, with_one, IsDrawingOf};
ghost use Rattle.glob_text.specs.Parts.{AreCompiled};
ghost use Rattle.glob_text.specs.Texts.{AreChoicesOf};

use crate::mark::Mark;
use crate::merged::merged;
use crate::part::compile_each;
use crate::size::Size;
use std::alloc::{AllocError, Allocator, Global};
use wildcards::{Choice, Separators};

/// The largest number of patterns that one is written out as before alternatives of letters are merged.
const MOST_APART: usize = 16;

/// A pattern without alternatives: the indices of its marks.
#[derive(Drop)]
pub struct Chosen<A: Allocator = Global> {
    pub marks: Vec<usize, A>,
}

/// Counted. Other nodes are given by their indices, which are lower.
#[derive(Clone, Copy)]
enum Node {
    /// One choice without marks.
    End,
    /// The index of a mark, and the choices that it comes before.
    One(usize, usize),
    /// Counted, and others after them.
    Both(usize, usize),
}

/// Counted, by their node.
#[derive(Clone, Copy)]
struct Counted {
    node: usize,
    size: Size,
}

/// Alternatives that are read from their `}` on.
#[derive(Clone, Copy)]
struct Group {
    // What comes after them.
    after: Counted,
    // The alternatives that are whole, each with what comes after it.
    found: Option<Counted>,
}

/// What the marks that are read are written out as.
#[derive(Drop)]
struct Drawing<A: Allocator = Global> {
    nodes: Vec<Node, A>,
    // The alternatives that are read, the innermost last.
    groups: Vec<Group, A>,
    current: Counted,
}

/// A choice that is being written: the indices of its marks so far, and the node of how it goes on.
#[derive(Drop)]
struct Opened<A: Allocator = Global> {
    marks: Vec<usize, A>,
    node: usize,
}

impl<A: Allocator> Drawing<A> {
    /// Puts a mark before each choice.
    fn add_one(&mut self, index: usize) -> Result<(), AllocError>
        ensures { OnOk result (drawing_of self.new ≡ with_one (drawing_of self.old) index) }
    {
        let node = self.nodes.len();
        self.nodes.push(Node::One(index, self.current.node))?;
        self.current = Counted {
            node,
            size: self.current.size.with_mark(),
        };
        Ok(())
    }

    /// Adds the choices that were found before, after those of now.
    fn add_found(&mut self, found: Option<Counted>) -> Result<(), AllocError>
        ensures { OnOk result (drawing_of self.new ≡ with_found (drawing_of self.old) found) }
    {
        let Some(found) = found else { return Ok(()) };
        let node = self.nodes.len();
        self.nodes.push(Node::Both(self.current.node, found.node))?;
        self.current = Counted {
            node,
            size: self.current.size.and(found.size),
        };
        Ok(())
    }

    /// Adds a comma.
    fn add_comma(&mut self, index: usize) -> Result<(), AllocError>
        ensures { OnOk result (drawing_of self.new
            ≡ comma_in (drawing_of self.old).groups (drawing_of self.old) index) }
    {
        let Some(group) = self.groups.pop() else {
            return self.add_one(index);
        };
        self.add_found(group.found)?;
        self.groups.push(Group {
            after: group.after,
            found: Some(self.current),
        })?;
        self.current = group.after;
        Ok(())
    }

    /// Adds a `{`.
    fn add_open(&mut self) -> Result<(), AllocError>
        ensures { OnOk result (drawing_of self.new
            ≡ open_in (drawing_of self.old).groups (drawing_of self.old)) }
    {
        match self.groups.pop() {
            Some(group) => self.add_found(group.found),
            None => Ok(()),
        }
    }

    /// Adds the mark of this index, which comes before those that were read.
    fn add(&mut self, mark: &Mark<A>, index: usize) -> Result<(), AllocError>
        ensures { OnOk result (drawing_of self.new
            ≡ added (drawing_of self.old) (mark_of mark.now) index) }
    {
        match mark {
            Mark::Close(_) => self.groups.push(Group {
                after: self.current,
                found: None,
            })?,
            Mark::Comma => self.add_comma(index)?,
            Mark::Open(_) => self.add_open()?,
            Mark::Literal(_) => self.add_one(index)?,
            Mark::Any => self.add_one(index)?,
            Mark::Star(_) => self.add_one(index)?,
            Mark::OneOf(_) => self.add_one(index)?,
        }
        Ok(())
    }
}

/// Reads marks.
fn read_marks<A: Allocator + Copy>(alloc: A, marks: &[Mark<A>]) -> Result<Drawing<A>, AllocError>
    ensures { IfOk result (λ drawing. IsDrawingOf (map mark_of marks.entry.now)
        (drawing_of drawing)) }
{
    let mut nodes = Vec::with_capacity(alloc, marks.len().saturating_add(1))?;
    nodes.push(Node::End)?;
    let mut drawing = Drawing {
        nodes,
        groups: Vec::new(alloc),
        current: Counted {
            node: 0,
            size: Size::nothing(),
        },
    };
    let mut left = marks;
    while let Some((mark, before)) = left.split_last() {
        drawing.add(mark, before.len())?;
        left = before;
    }
    Ok(drawing)
}

/// The node of an index.
fn node_at(nodes: &[Node], index: usize) -> Node
    ensures { result ≡ node_at nodes.now index }
{
    match nodes.get(index) {
        Some(node) => *node,
        None => Node::End,
    }
}

/// Copies the marks of a choice, with room for as many as choices have on average.
fn copy<A: Allocator>(alloc: A, marks: &[usize], room: usize) -> Result<Vec<usize, A>, AllocError>
    ensures { IfOk result (λ copy. copy.items ≡ marks.now) }
{
    let mut copy = Vec::with_capacity(alloc, room)?;
    copy.extend_from_slice(marks)?;
    Ok(copy)
}

/// Compiles the choices that are drawn of marks.
fn compile_drawn<A: Allocator + Copy>(
    alloc: A,
    separators: Separators,
    marks: &[Mark<A>],
    drawing: &Drawing<A>,
) -> Result<Vec<Choice<A>, A>, AllocError>
    requires { IsDrawingOf (map mark_of marks.now) (drawing_of drawing.now) }
    ensures { IfOk result (λ compiled. AreCompiled separators
        (choices_behind (map mark_of marks.entry.now) at_end).current compiled.items) }
{
    let size = drawing.current.size;
    let room = size.average();
    let mut written = Vec::with_capacity(alloc, size.choices())?;
    let mut opened = Vec::new(alloc);
    let mut one = Opened {
        marks: Vec::with_capacity(alloc, room)?,
        node: drawing.current.node,
    };
    loop {
        match node_at(&drawing.nodes, one.node) {
            Node::End => {
                written.push(Chosen { marks: one.marks })?;
                let Some(next) = opened.pop() else {
                    return compile_each(alloc, separators, marks, &written);
                };
                one = next;
            }
            Node::One(index, next) => {
                one.marks.push(index)?;
                one.node = next;
            }
            Node::Both(first, second) => {
                opened.push(Opened {
                    marks: copy(alloc, &one.marks, room)?,
                    node: second,
                })?;
                one.node = first;
            }
        }
    }
}

/// Compiles marks whose braces are closed, or returns `None` if their choices are too large. If they are
/// many, alternatives of letters are merged first. A set finds a few by their letters, and a class by none.
pub(crate) fn compile_choices<A: Allocator + Copy>(
    alloc: A,
    separators: Separators,
    marks: &[Mark<A>],
) -> Result<Option<Vec<Choice<A>, A>>, AllocError>
    requires { are_balanced 0 (map mark_of marks.now) ≡ true }
    ensures { IfOk result (λ read. MatchOption read (AreTooMany (map mark_of marks.entry.now))
        (λ compiled. AreChoicesOf separators (map mark_of marks.entry.now) compiled.items)) }
{
    let drawing = read_marks(alloc, marks)?;
    let size = drawing.current.size;
    if size.is_too_large() {
        return Ok(None);
    }
    if size.choices() <= MOST_APART {
        return Ok(Some(compile_drawn(alloc, separators, marks, &drawing)?));
    }
    let merged = merged(alloc, separators, marks)?;
    let few = read_marks(alloc, &merged)?;
    Ok(Some(compile_drawn(alloc, separators, &merged, &few)?))
}
