// Hooks are sampled from a segment's pieces.
ghost use Rattle.std.specs.Prelude.{◌≡◌, ◌≢◌, ◌≤◌, length, vec_len, AllPairs, IfOk};
ghost use Rattle.std.specs.List.{AllPass};
ghost use Rattle.ss_base.specs.Hook.{is_hook};
ghost use Rattle.hook_sampler.specs.Hooks.{hooks};

use crate::distinct::Distinct;
use ss_base::{Memory, Name, Piece, is_hook};
use std::alloc::Global;

/// The hooks of these pieces: the distinct names whose first `bits` bits are zero, in the order in which they first
/// stand.
pub fn hooks(alloc: Global, pieces: &[Piece], bits: u32) -> Result<Vec<Name>, Memory>
    requires { bits ≤ 32 }
    ensures hooks { IfOk result (λ names. names.items ≡ hooks bits pieces.now) }

    // What follows from the definition.
    ensures sampled { IfOk result (λ names. AllPass (is_hook bits) names.items) }
    ensures distinct { IfOk result (λ names. AllPairs (λ a b. a ≢ b) names.items) }
    ensures few { IfOk result (λ names. vec_len names ≤ length pieces.now) }
{
    let mut found = Distinct::new(alloc);
    for piece in pieces {
        if is_hook(&piece.name, bits) {
            found.add(piece.name)?;
        }
    }
    Ok(found.into_names())
}
