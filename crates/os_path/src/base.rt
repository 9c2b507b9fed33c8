//! Bases of names that come from outside.
ghost use Rattle.platform_str.specs.Strings.{path_bytes, path_vec_of};
ghost use Rattle.path_building.specs.BaseViews.{base_path, base_style};
ghost use Rattle.path_building.specs.Checked.{IsBelowBase, IsCheckedJoin};
ghost use Rattle.path_building.specs.Faults.{IsBaseFault, IsNameFault};
ghost use Rattle.std.specs.Prelude.{◌≡◌, IfErr, IfOk};

use crate::made::path_of;
use crate::style::PathStyle;
use path_building::{BaseError, NameError};
use platform_str::{Path, PathBuf};
use std::alloc::{AllocError, Allocator};
use std::marker::PhantomData;

/// A complete path without a NUL, below which names from outside may be put by [`Base::join`].
/// [`crate::PathExt::as_base`] makes it.
pub struct Base<'a, E: PathStyle + 'a> {
    base: path_building::Base<'a>,
    platform: PhantomData<E>,
    ghost formed: { E.well_formed (base_path base) } by { E.well_formed_prop (base_path base) },
    ghost style_is: { ∥ base_style base ≡ E.follows ∥₁ },
}

impl<'a, E: PathStyle> Clone for Base<'a, E> {
    ghost use Rattle.std.specs.Prelude.{◌≡◌};

    ghost is_clone = { λ x y. y ≡ x };

    ghost is_infallible = { λ _. Unit {0} };

    fn clone(&self) -> Result<Self, AllocError> {
        Ok(*self)
    }
}

impl<'a, E: PathStyle> Copy for Base<'a, E> {}

impl<'a, E: PathStyle> Base<'a, E> {
    ghost use Rattle.os_path.specs.Bases.{path_of_base};

    /// The path as a base.
    pub(crate) fn new(path: Path<'a, E>) -> Result<Self, BaseError>
        ensures ok { IfOk result (λ base. path_of_base base ≡ path_bytes path.entry) }
        ensures err { IfErr result (λ error. IsBaseFault E.follows (path_bytes path.entry) error) }
    {
        match path_building::Base::new(E::style(), path.as_os_str().as_encoded_bytes()) {
            Ok(base) => Ok(Base {
                base,
                platform: PhantomData,
            }),
            Err(error) => Err(error),
        }
    }

    /// Joins a path that can't leave the base, in new memory, as [`crate::PathExt::join_checked`]
    /// does.
    ///
    /// # Errors
    ///
    /// The first of these that holds. The index is that of the first component at fault, even if a
    /// later `..` removes it:
    ///
    /// - `Nul` with the byte index of the path's first NUL.
    /// - `Prefix` if the path has a prefix, and `Root` if it has a root.
    /// - `Leaves` if a `..` has no name of the path before it to remove.
    /// - `Stream` if a name of a Windows path has a colon.
    /// - `Reserved` if a name of a Windows path is reserved ([`crate::is_reserved`]).
    /// - `Memory` if an allocation fails.
    ///
    /// ```
    /// use os_path::{NameError, PathExt, path};
    /// use platform_str::{OsStr, Unix};
    ///
    /// let base = path::<Unix>("/srv/files").as_base()?;
    /// for (name, below) in [("a/../b", "/srv/files/b"), ("c", "/srv/files/c")] {
    ///     assert!(rt; base.join(alloc, path(name))?.as_os_str() == OsStr::new(below));
    /// }
    /// assert!(rt; base.join(alloc, path("../etc")).is_err_and(|e| e == NameError::Leaves(0)));
    /// ```
    pub fn join<A: Allocator + Clone>(
        &self,
        alloc: A,
        path: Path<'_, E>,
    ) -> Result<PathBuf<E, A>, NameError>
        ensures ok { IfOk result (λ joined. IsCheckedJoin E.follows
            (path_of_base self.now) (path_bytes path.entry) (path_vec_of joined).items) }
        ensures below { IfOk result (λ joined. IsBelowBase E.follows
            (path_of_base self.now) (path_vec_of joined).items) }
        ensures err { IfErr result
            (λ error. IsNameFault E.follows (path_bytes path.entry) error) }
    {
        match self.base.join(alloc, path.as_os_str().as_encoded_bytes()) {
            Ok(joined) => Ok(path_of(joined)),
            Err(error) => Err(error),
        }
    }
}
