// Laws of origins.
ghost use Rattle.std.specs.Prelude.{◌≡◌, List, map};
ghost use Rattle.ss_base.specs.declared.name.Piece.{Piece};
ghost use Rattle.ss_base.specs.Origins.{fresh_marks};
ghost use Rattle.lack_plan.specs.declared.origin.Origin.{Origin};
ghost use Rattle.lack_plan.specs.Plan.{origins, is_fresh_origin, AreOrigins};

/// Each segment has one list of origins among given lists, and the fresh places are those whose origin is none. It
/// runs nothing.
pub fn one_plan()
    ensures only { (pieces : List Piece) (lists : List (List Piece)) (found : List Origin) → AreOrigins pieces lists found
        → found ≡ origins pieces lists }
    ensures marks { (pieces : List Piece) (lists : List (List Piece)) → map is_fresh_origin (origins pieces lists)
        ≡ fresh_marks pieces lists }
{}
