//! Where output goes, and where messages go.

use std::io::{Stderr, Stdout, Write};

/// A writer that output goes to: standard output is one, standard error isn't.
pub trait Output: Write {}

impl Output for Stdout {}

/// A writer that messages go to: standard error is one, standard output isn't.
pub trait Messages: Write {}

impl Messages for Stderr {}
