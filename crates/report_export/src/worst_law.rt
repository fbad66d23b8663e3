//! What a run came to: how the jobs of each transaction ended, and the worst response, delay and age, each beside its bound.
ghost use Rattle.report_export.specs.Laws.{WithinBounds};

use law_histories::{fresh_together, one_delay};
use law_times::deadlines;
use set_admission::{admitted_keeps_bounds, admitted_unless_refused};

/// In each legal history no response is above that of its transaction, no delay above the blocking (Joseph and Pandya 1986, with
/// the blocking term of Sha, Rajkumar, Son, Chang 1991), and no age above the validity. Over an admitted set no worst response is
/// above the bound that is told beside it, nor in a steady history the greatest age (Ramamritham 1993).
pub fn worst_is_within_bounds()
    ensures { WithinBounds }
{
    deadlines();
    one_delay();
    fresh_together();
    admitted_unless_refused();
    admitted_keeps_bounds();
}
