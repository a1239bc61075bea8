// Bytes as text.
ghost use Rattle.std.specs.Prelude.{◌≡◌, ◌≢◌, [], ◌∷◌, Ok, IfErr, IfOk, IsOkAnd};
ghost use Rattle.console.specs.Unread.{Unread};
ghost use Rattle.hex.specs.Hex.{decode_of};

use anyhow::anyhow;
use hex::FromHexError;
use std::alloc::Global;
use std::fmt;

// Bytes that print as two digits each.
#[derive(Clone, Copy)]
pub struct Hex<'a>(pub &'a [u8]);

impl<'a> fmt::Display for Hex<'a> {
    fn fmt<W: fmt::Write>(&self, f: &mut fmt::Formatter<W>) -> fmt::Result {
        for byte in self.0 {
            write!(f, "{byte:02X}")?;
        }
        Ok(())
    }
}

// The bytes of two hexadecimal digits each; a dash is no bytes. Whole pairs are read first, so a wrong digit in one of them is
// told before a digit that is left over.
pub fn decode(heap: Global, text: &str) -> anyhow::Result<Vec<u8>>
    ensures dash { text.now ≡ (45 ∷ []) → IsOkAnd result (λ bytes. bytes.items ≡ []) }
    ensures digits { text.now ≢ (45 ∷ []) → IfOk result (λ bytes. decode_of text.now ≡ Ok bytes.items) }
    ensures refused { text.now ≢ (45 ∷ []) → IfErr result (Unread text.now) }
{
    if text == "-" {
        return Ok(Vec::new(heap));
    }
    let digits = text.as_bytes();
    let paired = digits.len() - digits.len() % 2;
    match hex::decode(heap, &digits[..paired]) {
        Ok(bytes) if paired == digits.len() => Ok(bytes),
        Ok(_) => Err(anyhow!("half a byte")),
        Err(FromHexError::OutOfMemory) => Err(anyhow!("memory allocation failed")),
        Err(_) => Err(anyhow!("no hexadecimal digit")),
    }
}
