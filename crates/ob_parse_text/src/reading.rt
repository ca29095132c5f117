//! A text read as a module, as a function of its bytes.

ghost use Rattle.std.specs.Prelude.{◌+◌, ◌<◌, ◌^◌, length};
ghost use Rattle.ob_parse_grammar.specs.TextReading.{reading};
ghost use Rattle.ob_parse_text.specs.Reading.{IsReading};

use crate::fault::TextFault;
use crate::text::parse_text;
use ob_tree::Module;
use std::alloc::Global;

/// The module that a text of fewer than 2^32 - 1 bytes is read as, or the first fault of scanning
/// it, or else of parsing it.
///
/// The answer is a function of the bytes, but for Memory, which comes where there was none.
#[tactic(auto, using(crate::proofs::Exact::is_reading))]
pub fn read_module(alloc: Global, text: &[u8]) -> Result<Module, TextFault>
    requires { length text.now + 1 < 2 ^ 32 }
    ensures { IsReading (reading text.now) result }
{
    parse_text(alloc, text)
}
