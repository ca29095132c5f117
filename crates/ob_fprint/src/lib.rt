//! Fingerprints of texts.
#![tactic(auto)]

ghost use Rattle.std.specs.Prelude.{◌≡◌};
ghost use Rattle.ob_fprint.specs.Print.{print_from};

use ob_tree::Print;
use sha2::{Digest, Sha256};

/// The print of a text: the first eight bytes of its SHA-256 digest. Takes no memory.
pub fn print_of(text: &[u8]) -> Print
    ensures { result ≡ print_from text.now }
{
    let digest = Sha256::digest(text);
    let mut first = [0; 8];
    first.copy_from_slice(&digest[..8]);
    Print(first)
}

#[cfg(test)]
mod tests {
    use super::*;
    use std::test::*;

    // The digests are those of the standard's examples.
    #[test]
    fn prints_of_known_digests(rt: HostRuntime) -> Result<(), Fail> {
        let abc = Print([0xba, 0x78, 0x16, 0xbf, 0x8f, 0x01, 0xcf, 0xea]);
        assert!(rt; print_of(b"abc").agrees(&abc));
        let empty = Print([0xe3, 0xb0, 0xc4, 0x42, 0x98, 0xfc, 0x1c, 0x14]);
        assert!(rt; print_of(b"").agrees(&empty));
        assert!(rt; !print_of(b"abd").agrees(&abc));
        Ok(())
    }
}
