// Which names are hooks.
ghost use Rattle.std.specs.Prelude.{◌≡◌, ◌≤◌};
ghost use Rattle.ss_base.specs.Hook.{is_hook};

use crate::Name;

/// Whether the first `bits` bits of the name are zero, of at most 32.
pub fn is_hook(name: &Name, bits: u32) -> bool
    requires { bits ≤ 32 }
    ensures { result ≡ is_hook bits name.now }
{
    let [a, b, c, d, ..] = name.0;
    u64::from(u32::from_be_bytes([a, b, c, d])) >> (32 - bits) == 0
}
