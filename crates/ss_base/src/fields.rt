// Fields of a fixed size, one behind another, as the texts of stored objects have them.
ghost use Rattle.std.specs.Prelude.{◌≡◌, ◌++◌, length, OnOk};
ghost use Rattle.std.specs.Int.{w32, to_be_bytes};

use crate::{Memory, Name};

/// Reads fields one behind another, one line a field: its name, how it is read, and its size in bytes.
#[macro_export]
macro_rules! read_fields {
    ($text:ident; $($field:ident: $read:ident of $size:literal,)+) => {
        $(
            let (part, $text) = $text.split_at($size);
            let $field = $read(part);
        )+
    };
}

/// The name with these 32 bytes.
pub fn read_name(text: &[u8]) -> Name
    requires { length text.now ≡ 32 }
    ensures { result.0 ≡ text.now }
{
    let mut bytes = [0; 32];
    bytes.copy_from_slice(text);
    Name(bytes)
}

/// The number of 32 bits with these 4 bytes, the highest first.
pub fn read_number(text: &[u8]) -> u32
    requires { length text.now ≡ 4 }
    ensures { to_be_bytes w32 result ≡ text.now }
{
    u32::from_be_bytes([text[0], text[1], text[2], text[3]])
}

/// Adds the 32 bytes of a name.
pub fn write_name(out: &mut Vec<u8>, name: Name) -> Result<(), Memory>
    ensures { OnOk result (out.new.items ≡ out.old.items ++ name.0) }
{
    out.extend_from_slice(name.0.as_slice())?;
    Ok(())
}

/// Adds the 4 bytes of a number, the highest first.
pub fn write_number(out: &mut Vec<u8>, number: u32) -> Result<(), Memory>
    ensures { OnOk result (out.new.items ≡ out.old.items ++ to_be_bytes w32 number) }
{
    out.extend_from_slice(number.to_be_bytes().as_slice())?;
    Ok(())
}
