//! What the posts of a run count.

ghost use Rattle.monitor_run.specs.Ran.{AllCountAsTold};

use outside::Post;

/// Each post counts what it tells, by a law of the trait.
pub(crate) fn count_as_told<P: Post>(_posts: &[P])
    ensures { AllCountAsTold P.scene P.faults _posts.now }
{}
