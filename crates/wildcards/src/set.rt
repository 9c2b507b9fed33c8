//! Patterns of sets.
use crate::pattern::Choice;
use std::alloc::{Allocator, Global};

/// A pattern of a set: it matches where one of its choices does.
#[derive(Drop)]
pub struct Pattern<A: Allocator = Global> {
    pub choices: Vec<Choice<A>, A>,
}
