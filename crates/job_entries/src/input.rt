// The segments of an input whose shelf tells its objects.
ghost use Rattle.std.specs.Prelude.{ℕ, ◌≡◌, List, ◌++◌, Some};
ghost use Rattle.ss_base.specs.declared.profile.Numbers.{Numbers};
ghost use Rattle.outside.specs.Shelf.{Objects, bytes_of};
ghost use Rattle.outside.specs.Views.{ShelfView, SourceView};
ghost use Rattle.segment_reader.specs.SegmentsOf.{segments_of};
ghost use Rattle.segment_reader.specs.WorkState.{WorkState};
ghost use Rattle.session.specs.Backup.{input_view};
ghost use Rattle.session.specs.Split.{HasSplit, HasGivenAll};

/// Where the objects of the input's shelf are told, the segments that it gave whole are those of the input's bytes, and
/// those that it gave so far are the first of these. It runs nothing.
pub fn segments_of_an_input()
    ensures whole { (n : Numbers) (files : ShelfView) (input : List ℕ) (objects : Objects) (last : SourceView) (segments : List (List (List ℕ)))
        → files.held ≡ Some objects
        → HasGivenAll n (input_view files input) last segments
        → segments_of n (bytes_of objects input) ≡ segments }
    ensures front { (n : Numbers) (files : ShelfView) (input : List ℕ) (objects : Objects) (last : SourceView) (work : WorkState) (segments : List (List (List ℕ)))
        → files.held ≡ Some objects
        → HasSplit n (input_view files input) last work segments
        → (rest : List (List (List ℕ))) × (segments_of n (bytes_of objects input) ≡ segments ++ rest) }
{}
