//! Bytes, of which a few need no block of their own.

ghost use Rattle.std.specs.Prelude.{◌≡◌, ◌≤◌, ◌-◌, ◌++◌, length, replicate, nat_le, Some, None, IfOk, if◌then◌else◌};

use crate::list::List;
use std::alloc::{AllocError, Global};
use std::marker::Model;

/// The most bytes that stand in the spelling itself.
const SHORT: usize = 14;

#[derive(Debug, Drop)]
enum Held {
    // So many bytes, and zeros behind them.
    Short { len: u8, bytes: [u8; 14] },
    Long(Box<List<u8>>),
}

/// Bytes of a text, in 16 bytes of memory where they are at most 14. Contracts see it as their
/// list.
#[derive(Debug, Drop)]
pub struct Spelling {
    held: Held,
}

impl Model for Spelling {
    ghost use Rattle.std.specs.Prelude.{List as Listed, ℕ};
    ghost use Rattle.ob_tree.specs.Spelled.{bytes_of, IsShort};

    ghost Value = { Listed ℕ };

    ghost view = { λ s. bytes_of s.held };

    ghost invariant = { λ s. IsShort s.held };
}

// The bytes, and zeros behind them.
fn short(text: &[u8]) -> [u8; 14]
    requires { length text.now ≤ 14 }
    ensures { result ≡ text.now ++ replicate (14 - length text.now) 0 }
{
    let mut bytes = [0; 14];
    for i in 0..text.len() {
        bytes[i] = text[i];
    }
    bytes
}

impl Spelling {
    /// These bytes, where they are at most 14. Takes no memory.
    #[inline(always)]
    pub fn short(text: &[u8]) -> Option<Spelling>
        ensures { result ≡ (if nat_le (length text.now) 14 then Some text.now else None) }
    {
        if text.len() <= SHORT {
            Some(Spelling {
                held: Held::Short {
                    len: text.len() as u8,
                    bytes: short(text),
                },
            })
        } else {
            None
        }
    }

    /// These bytes. Takes memory for more than 14 of them alone.
    #[inline(always)]
    pub fn from_slice(alloc: Global, text: &[u8]) -> Result<Spelling, AllocError>
        ensures { IfOk result (λ s. s ≡ text.now) }
    {
        match Spelling::short(text) {
            Some(spelling) => Ok(spelling),
            None => {
                let bytes = List::from_slice(alloc, text)?;
                Ok(Spelling {
                    held: Held::Long(Box::new(alloc, bytes)?),
                })
            }
        }
    }

    /// The bytes.
    pub fn as_slice(&self) -> &[u8]
        ensures { result.now ≡ self.now }
    {
        match &self.held {
            Held::Short { len, bytes } => &bytes[..*len as usize],
            Held::Long(bytes) => bytes.as_slice(),
        }
    }
}

impl Clone for Spelling {
    ghost use Rattle.std.specs.Prelude.{◌≡◌};

    ghost is_clone = { λ a b. b ≡ a };

    fn clone(&self) -> Result<Spelling, AllocError> {
        match &self.held {
            Held::Short { len, bytes } => Ok(Spelling {
                held: Held::Short {
                    len: *len,
                    bytes: *bytes,
                },
            }),
            Held::Long(bytes) => {
                let same = bytes.clone()?;
                Ok(Spelling {
                    held: Held::Long(same),
                })
            }
        }
    }
}
