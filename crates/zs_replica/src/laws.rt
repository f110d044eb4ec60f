//! Laws of the program's dumps and gets. Each function does nothing but call the laws that it rests on: its contract is the law.

ghost use Rattle.zs_replica.specs.Laws.{DumpsShowBest, RunsShowBest};
ghost use Rattle.zs_replica.specs.Gets.{GetsShowNewest, LinesPrintGets, RunsShowGets};

use zs_replica_gets::{
    default_sessions_answer, gets_hand_the_newest, newest_is_best, requests_are_answered,
};
use zs_replicas::{default_sessions_start, stores_hold_what_was_written};

/// Behind the lines that any rows are, what `dump` shows of a side is at each key the greatest entry of all that the side's own
/// lines wrote and of what the other's did, but for the newest, whose pushes wait, and no other key; and where no push waits, both
/// stores are equal. The settings accept the first declarations.
fn dumps_show_best()
    ensures { DumpsShowBest }
{
    stores_hold_what_was_written();
}

/// So it is with the program's settings.
pub(crate) fn runs_show_best()
    ensures { RunsShowBest }
{
    dumps_show_best();
    default_sessions_start();
}

/// The lines that any rows are take steps of two linked stores. A get is handed something in the one step that delivers its
/// final, which ends it: at each key that meets its own one reply, the newest of what its side had when it asked and of what the
/// other one had when it took the request. A request that a step delivers and that is accepted is answered in that step, from the
/// store of the side that took it, with its final. The settings accept the first declarations.
fn gets_show_newest()
    ensures { GetsShowNewest }
{
    gets_hand_the_newest();
    requests_are_answered();
}

/// What is printed of a line behind its head is what its steps hand the gets of the side that acts.
fn lines_print_gets()
    ensures { LinesPrintGets }
{}

/// So it is with the program's settings.
pub(crate) fn runs_show_gets()
    ensures { RunsShowGets }
{
    gets_show_newest();
    lines_print_gets();
    newest_is_best();
    default_sessions_start();
    default_sessions_answer();
}
