//! Laws of the program's views. Each function does nothing but call the laws that it rests on: its contract is the law.

ghost use Rattle.zs_groups.specs.Laws.{RunsShowMembers, ViewsShowMembers};

use zs_group_laws::{default_sessions_start, sides_see_members};

/// Behind the lines that any rows are, the tokens that a side holds are those that its accepted lines declared and did not end. What
/// `view` shows of a side is of each name as many as the side holds tokens of it, and as it was told tokens of the other's of it that
/// were not ended: where nothing of the other waits, as many as both hold. Where nothing waits at all, both sides see the same. The
/// settings accept the first declarations.
pub fn views_show_members()
    ensures { ViewsShowMembers }
{
    sides_see_members();
}

/// So it is with the program's settings.
pub(crate) fn runs_show_members()
    ensures { RunsShowMembers }
{
    views_show_members();
    default_sessions_start();
}
