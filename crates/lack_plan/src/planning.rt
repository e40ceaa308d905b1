// The origins of a segment's pieces.
ghost use Rattle.std.specs.Prelude.{◌≡◌, ◌≤◌, ◌<◌, ◌^◌, ℕ, List, [], ◌∷◌, ◌++◌, map, length, IfOk, OnOk, slice_get, Some, ◌↔◌};
ghost use Rattle.ss_base.specs.declared.name.Piece.{Piece};
ghost use Rattle.ss_base.specs.Origins.{IsFreshPlace};
ghost use Rattle.lack_plan.specs.Plan.{origins, AreOrigins, IsOrigin};
ghost use Rattle.lack_plan.specs.Maps.{HasPlaces, KnowsPieces};

use crate::Origin;
use crate::known::champion_places;
use manifest_codec::Manifest;
use ss_base::{MAX_CHAMPIONS, MAX_CHUNKS, Memory, Piece};
use std::alloc::Global;
use std::collections::HashMap;

/// The origin of each piece of a segment, in their order. Its time is that of the pieces.
pub fn lacks(alloc: Global, pieces: &[Piece], champions: &[Manifest]) -> Result<Vec<Origin>, Memory>
    requires pieces { length pieces.now ≤ MAX_CHUNKS }
    requires champions { length champions.now ≤ MAX_CHAMPIONS }
    ensures all { IfOk result (λ list. list.items ≡ origins pieces.now (map (λ m. m.pieces.items) champions.now)) }

    // What follows from the definition.
    ensures origins { IfOk result (λ origins. AreOrigins pieces.now (map (λ m. m.pieces.items) champions.now) origins.items) }
    ensures fresh { IfOk result (λ origins. (k : ℕ) → (slice_get origins.items k ≡ Some Origin.Fresh) ↔
        IsFreshPlace pieces.now (map (λ m. m.pieces.items) champions.now) k) }
{
    let known = champion_places(alloc, champions)?;
    let mut earlier = HashMap::new(alloc);
    let mut origins = Vec::with_capacity(alloc, pieces.len())?;
    for (at, piece) in pieces.iter().enumerate() {
        let origin = origin_of(&known, &mut earlier, *piece, at as u32)?;
        origins.push(origin)?;
    }
    Ok(origins)
}

// The origin of the piece at a place, which the map has then too.
fn origin_of(
    known: &HashMap<Piece, (u32, u32)>,
    earlier: &mut HashMap<Piece, u32>,
    piece: Piece,
    at: u32,
) -> Result<Origin, Memory>
    ensures origin { IfOk result (λ origin. (before : List Piece) (lists : List (List Piece)) → HasPlaces before earlier.old →
        KnowsPieces lists known.now → IsOrigin before lists piece origin) }
    ensures places { OnOk result ((before : List Piece) → length before ≡ at → HasPlaces before earlier.old →
        HasPlaces (before ++ piece ∷ []) earlier.new) }
{
    if let Some(place) = earlier.get(&piece).copied() {
        return Ok(Origin::Earlier(place));
    }
    earlier.insert(piece, at)?;
    match known.get(&piece).copied() {
        Some((which, at)) => Ok(Origin::Champion { which, at }),
        None => Ok(Origin::Fresh),
    }
}
