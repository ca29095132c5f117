//! Why a text is no module.

use ob_parse_grammar::ParseFault;
use ob_scan::ScanFault;

/// Why a text is no module. The faults inside are never Memory.
#[derive(Clone, Copy, PartialEq, Eq, Drop)]
pub enum TextFault {
    /// The text has no tokens.
    Scan(ScanFault),
    /// Its tokens are no module.
    Parse(ParseFault),
    /// There was no memory.
    Memory,
}
