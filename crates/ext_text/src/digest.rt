ghost use Rattle.std.specs.Prelude.{◌≡◌, ◌↔◌, length, IsSome, IfSome};
ghost use Rattle.std.specs.List.{AllPass};
ghost use Rattle.hex.specs.Hex.{decode_of, encode_lower, is_hex_digit};
ghost use Rattle.sha2.specs.Sha256.{sha256};
ghost use Rattle.ext_text.specs.Digest.{IsDigest};

use ext_lines::hex_digits;
use hex::FromHex;
use sha2::Sha256;

/// A digest of SHA-256 (FIPS 180-4): 32 bytes.
#[derive(Clone, Copy, Debug, PartialEq, Eq)]
pub struct Digest(pub [u8; 32]);

impl Digest {
    /// The digest of these bytes. It takes no memory.
    pub fn of(bytes: &[u8]) -> Digest
        ensures { result.0 ≡ sha256 bytes.now }
    {
        Digest(<Sha256 as sha2::Digest>::digest(bytes))
    }

    /// The digest that 64 hexadecimal digits of either case write; `None` exactly for any other text.
    pub fn read(text: &[u8]) -> Option<Digest>
        ensures value { IfSome result (λ digest. decode_of text.now ≡ Ok digest.0) }
        ensures some { IsSome result ↔ ((length text.now ≡ 64) × AllPass is_hex_digit text.now) }
    {
        match <[u8; 32] as FromHex>::from_hex(text) {
            Ok(bytes) => Some(Digest(bytes)),
            Err(_) => None,
        }
    }

    /// The bytes, of which there are 32.
    pub fn bytes(&self) -> &[u8; 32]
        ensures same { result.now ≡ self.now.0 }
        ensures digest { IsDigest self.now.0 }
    {
        look_at(&self.0);
        &self.0
    }

    /// The 64 hexadecimal digits that write it, the letters in lower case.
    pub fn digits(&self) -> [u8; 64]
        ensures { result ≡ encode_lower self.now.0 }
    {
        hex_digits(&self.0)
    }
}

// Says of 32 bytes what a proof knows of a byte that it has seen.
fn look_at(bytes: &[u8])
    requires { length bytes.now ≡ 32 }
    ensures { IsDigest bytes.now }
{
    let _count = bytes.len();
}
