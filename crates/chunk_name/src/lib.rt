//! The names of chunks: SHA-256 (FIPS 180-4), and its text in hexadecimal digits.
#![tactic(auto)]

ghost use Rattle.std.specs.Prelude.{◌≡◌, ◌<◌, ◌^◌, length, IfOk, string_bytes};
ghost use Rattle.hex.specs.Hex.{encode_lower};
ghost use Rattle.chunk_name.specs.Pieces.{name_of_bytes, piece};

use sha2::{Digest, Sha256};
use ss_base::{Memory, Name, Piece};
use std::alloc::Global;

/// The name of these bytes: their SHA-256. It takes no memory.
pub fn name_of(bytes: &[u8]) -> Name
    ensures { result ≡ name_of_bytes bytes.now }
{
    Name(Sha256::digest(bytes))
}

/// The piece of this chunk: its name and its length, which has to fit 32 bits. It takes no memory.
pub fn piece_of(bytes: &[u8]) -> Piece
    requires { length bytes.now < 2 ^ 32 }
    ensures { result ≡ piece bytes.now }
{
    Piece {
        name: name_of(bytes),
        len: bytes.len() as u32,
    }
}

/// The name as 64 hexadecimal digits in lower case, the high four bits of each byte first.
pub fn hex_of(alloc: Global, name: &Name) -> Result<String, Memory>
    ensures digits { IfOk result (λ text. string_bytes text ≡ encode_lower name.now.0) }
    ensures len { IfOk result (λ text. length (string_bytes text) ≡ 64) }
{
    let text = hex::encode(alloc, name.0.as_slice())?;
    Ok(text)
}

#[cfg(test)]
mod tests;
