//! What the contracts of the fifo say of whole runs.
ghost use Rattle.std.specs.Prelude.{◌≡◌, ℕ, List, ◌++◌};
ghost use Rattle.zs_handlers.specs.Queue.{Queue};
ghost use Rattle.zs_handlers.specs.Calls.{Call, Leads, pushed_items, received_items};

/// After any calls a fifo holds what was pushed less what was received: what was received and then its items are what
/// was pushed, in order. Each call is told as its contract tells it.
pub fn fifo_law<T>()
    ensures { (n : ℕ) (calls : List (Call T)) (q : Queue T) → Leads n calls q → received_items calls ++ q.items ≡ pushed_items calls }
{}
