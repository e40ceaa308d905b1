// Laws of plans.
ghost use Rattle.std.specs.Prelude.{◌≡◌, ℕ, List, length, slice_get, Some};
ghost use Rattle.std.specs.List.{All};
ghost use Rattle.ss_base.specs.declared.ids.Place.{Place};
ghost use Rattle.ss_base.specs.declared.name.Piece.{Piece};
ghost use Rattle.chunk_name.specs.Pieces.{pieces};
ghost use Rattle.segmenter.specs.declared.segment.Segment.{Segment};
ghost use Rattle.segmenter.specs.Segment.{HasChunks};
ghost use Rattle.container_file.specs.declared.container_end.ContainerEnd.{ContainerEnd};
ghost use Rattle.segment_plan.specs.Plan.{Located, places_against, laid_against};
ghost use Rattle.segment_plan.specs.Located.{HasPlaces, LiesThere};
ghost use Rattle.segment_plan.specs.Planned.{segment_chunks};

/// A segment with these chunks is planned by them. It runs nothing.
pub fn chunks_of_a_segment()
    ensures { (segment : Segment) (chunks : List (List ℕ)) → HasChunks segment chunks → segment_chunks segment ≡ chunks }
{}

/// Each piece of a planned segment has one place, at which it lies. It runs nothing.
pub fn places_of_a_plan()
    ensures count { (chunks : List (List ℕ)) (manifests : List Located) (end : ContainerEnd) (room : ℕ) →
        length (places_against chunks manifests end room) ≡ length (pieces chunks) }
    ensures each { (chunks : List (List ℕ)) (manifests : List Located) (end : ContainerEnd) (room : ℕ) → All HasPlaces manifests →
        (k : ℕ) (piece : Piece) (place : Place) → slice_get (pieces chunks) k ≡ Some piece →
        slice_get (places_against chunks manifests end room) k ≡ Some place →
        LiesThere (laid_against chunks manifests end room) manifests piece place }
{}
