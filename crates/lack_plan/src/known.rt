// The pieces of the champions.
ghost use Rattle.std.specs.Prelude.{◌≡◌, ◌<◌, ◌^◌, ◌≤◌, List, [], ◌∷◌, ◌++◌, map, length, IfOk, OnOk};
ghost use Rattle.ss_base.specs.declared.name.Piece.{Piece};
ghost use Rattle.lack_plan.specs.Maps.{KnowsPieces};

use manifest_codec::Manifest;
use ss_base::{MAX_CHAMPIONS, Memory, Piece};
use std::alloc::Global;
use std::collections::HashMap;

/// For each piece of the champions, the first that has it, and its first place there.
pub fn champion_places(
    alloc: Global,
    champions: &[Manifest],
) -> Result<HashMap<Piece, (u32, u32)>, Memory>
    requires { length champions.now ≤ MAX_CHAMPIONS }
    ensures { IfOk result (KnowsPieces (map (λ m. m.pieces.items) champions.now)) }
{
    let mut places = HashMap::new(alloc);
    for (which, champion) in champions.iter().enumerate() {
        add_list(&mut places, which as u32, &champion.pieces)?;
    }
    Ok(places)
}

fn add_list(
    places: &mut HashMap<Piece, (u32, u32)>,
    which: u32,
    pieces: &[Piece],
) -> Result<(), Memory>
    requires { length pieces.now < 2 ^ 32 }
    ensures { OnOk result ((lists : List (List Piece)) → length lists ≡ which → KnowsPieces lists places.old →
        KnowsPieces (lists ++ pieces.now ∷ []) places.new) }
{
    for (at, piece) in pieces.iter().enumerate() {
        if !places.contains_key(piece) {
            places.insert(*piece, (which, at as u32))?;
        }
    }
    Ok(())
}
