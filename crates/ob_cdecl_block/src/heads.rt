//! Headings that wait for their procedures.

ghost use Rattle.std.specs.Prelude.{◌≡◌, reverse, drop, slice_get};

use ob_cdecl_heading::Head;

/// The headings, the last first.
pub(crate) fn turned(heads: Vec<Head>) -> Vec<Head>
    ensures { result.items ≡ reverse heads.items }
{
    let mut all = heads;
    all.reverse();
    all
}

/// The first heading of those that stand there the last first. Takes no memory.
pub(crate) fn next_head(heads: &mut Vec<Head>) -> Option<Head>
    ensures first { result ≡ slice_get (reverse heads.old.items) 0 }
    ensures rest { reverse heads.new.items ≡ drop 1 (reverse heads.old.items) }
{
    heads.pop()
}
