// Laws of what a script says.
ghost use Rattle.std.specs.Prelude.{◌≡◌, ℕ, List};
ghost use Rattle.job_script.specs.declared.job.Job.{Job};
ghost use Rattle.job_script.specs.Script.{HasJobs, IsFirstBad, HasTooMany};

/// A script has one list of jobs, or one first bad line, or too many jobs: what [`crate::parse`] answers of it, where
/// it wants no memory, is the only answer. It runs nothing.
pub fn one_answer()
    ensures jobs { (lanes : ℕ) (script : List ℕ) (left right : List Job) →
        HasJobs lanes script left → HasJobs lanes script right → left ≡ right }
    ensures bad_line { (lanes : ℕ) (script : List ℕ) (first second : ℕ) →
        IsFirstBad lanes script first → IsFirstBad lanes script second → first ≡ second }
    ensures no_bad_line { (lanes : ℕ) (script : List ℕ) (jobs : List Job) (number : ℕ) →
        HasJobs lanes script jobs → IsFirstBad lanes script number → ⊥ }
    ensures not_too_many { (lanes : ℕ) (script : List ℕ) (jobs : List Job) →
        HasJobs lanes script jobs → HasTooMany lanes script → ⊥ }
    ensures bad_or_too_many { (lanes : ℕ) (script : List ℕ) (number : ℕ) →
        IsFirstBad lanes script number → HasTooMany lanes script → ⊥ }
{}
