//! Laws of views. Each function does nothing: its contract is the law.

ghost use Rattle.zs_members.specs.Laws.{SameCountsSameView, ViewsCount};

/// A view counts of each name the puts less the deletions that it was told, never below none.
pub fn views_count()
    ensures { ViewsCount }
{}

/// Two views with the same counts are the same.
pub fn same_counts_same_view()
    ensures { SameCountsSameView }
{}
