// Laws of the cut, proved of the definition.
ghost use Rattle.std.specs.Prelude.{◌≡◌, ℕ, ◌<◌, ◌≤◌, List, All, length};
ghost use Rattle.std.specs.List.{flat_map};
ghost use Rattle.ss_base.specs.declared.profile.Profile.{Profile as AnyProfile};
ghost use Rattle.ss_base.specs.Profile.{numbers_of};
ghost use Rattle.tttd_chunker.specs.Cut.{cut};
ghost use Rattle.tttd_chunker.specs.IsCut.{IsCut, IsSized};

/// Each chunk of a cut ends where TTTD says, and no other list of chunks does so. The chunks hold the stream; each
/// has a byte, none has more than the upper threshold, and none but the last fewer than the lower.
pub fn cut_is_tttd()
    ensures is_cut { (p : AnyProfile) (bytes : List ℕ) → IsCut (numbers_of p) (cut (numbers_of p) bytes) bytes }
    ensures only { (p : AnyProfile) (bytes : List ℕ) (chunks : List (List ℕ)) →
        IsCut (numbers_of p) chunks bytes → chunks ≡ cut (numbers_of p) bytes }
    ensures whole { (p : AnyProfile) (bytes : List ℕ) → flat_map (λ c. c) (cut (numbers_of p) bytes) ≡ bytes }
    ensures sized { (p : AnyProfile) (bytes : List ℕ) → IsSized (numbers_of p) (cut (numbers_of p) bytes) }
{}
