//! Owned raw strings in a block of exactly their length.
ghost use Rattle.std.specs.Prelude.{◌≡◌};
ghost use Rattle.std.specs.Box.{boxed_slice_items};

use crate::raw_str::RawOsStr;
use crate::raw_string::RawOsString;
use os_str_ext::Platform;
use std::alloc::{Allocator, Global};
use std::boxed::{BoxedSlice, BoxedStr};
use std::marker::PhantomData;

/// An owned string of a platform in a block of exactly its length: the Rust crate's
/// `Box<RawOsStr>`.
///
/// It is made by [`crate::RawOsString::into_box`], or from a boxed text by `From`.
#[derive(Drop)]
pub struct RawOsStrBox<E: Platform, A: Allocator = Global> {
    bytes: BoxedSlice<u8, A>,
    platform: PhantomData<E>,
    pub ghost ok: { E.well_formed (boxed_slice_items bytes) } by { E.well_formed_prop (boxed_slice_items bytes) },
}

impl<E: Platform, A: Allocator> RawOsStrBox<E, A> {
    ghost use Rattle.os_str_bytes.specs.Raw.{box_bytes, raw_bytes};

    /// The string of a block of well-formed bytes.
    pub(crate) fn from_encoded_bytes(bytes: BoxedSlice<u8, A>) -> Self
        requires { E.well_formed (boxed_slice_items bytes) }
        ensures { box_bytes result ≡ boxed_slice_items bytes }
    {
        RawOsStrBox {
            bytes,
            platform: PhantomData,
        }
    }

    /// The block of the string's bytes.
    pub(crate) fn into_encoded_bytes(self) -> BoxedSlice<u8, A>
        ensures value { boxed_slice_items result ≡ box_bytes self }
        ensures formed { E.well_formed (boxed_slice_items result) }
    {
        self.bytes
    }

    /// A view of the string.
    ///
    /// ```
    /// use os_str_bytes::{RawOsStr, Unix};
    ///
    /// let boxed = RawOsStr::<Unix>::from_str("foo").to_owned(alloc)?.into_box()?;
    /// assert!(rt; boxed.as_raw().eq_str("foo"));
    /// ```
    pub fn as_raw(&self) -> RawOsStr<'_, E>
        ensures { raw_bytes result ≡ box_bytes self.now }
    {
        RawOsStr::from_encoded_bytes_unchecked(self.bytes.as_slice())
    }
}

impl<E: Platform, A: Allocator> From<BoxedStr<A>> for RawOsStrBox<E, A> {
    ghost use Rattle.std.specs.Prelude.{◌≡◌};
    ghost use Rattle.std.specs.Box.{boxed_str_bytes};
    ghost use Rattle.os_str_bytes.specs.Raw.{box_bytes};

    ghost from_gives = { λ text boxed. box_bytes boxed ≡ boxed_str_bytes text };

    fn from(text: BoxedStr<A>) -> Self {
        RawOsString::from_string(text.into_string()).into_block()
    }
}
