//! Bytes as a list.

use crate::list::List;

/// Bytes, which contracts see as their list.
pub type Text = List<u8>;
