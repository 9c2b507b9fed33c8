//! Walks over a string: its pieces, its chunks and its symbols.
//!
//! [`split`], [`chunks`] and [`symbols`] take one step of each iterator. [`split_fill`],
//! [`chunks_fill`] and [`symbols_fill`] take many steps at once, and [`fill_laws`] states what the
//! filled arrays hold.

pub mod chunks;
pub mod chunks_fill;
pub mod fill_laws;
pub mod split;
pub mod split_fill;
pub mod symbols;
pub mod symbols_fill;
pub mod view;
