//! The two forms in which a path has neither `.` nor a `..` after a name.

/// A form of a path.
#[derive(Clone, Copy)]
pub enum Form {
    /// That of `normalize`.
    Normal,
    /// That of `clean`.
    Clean,
}
