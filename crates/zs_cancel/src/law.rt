//! What the contracts of a token's state say of its whole life.
ghost use Rattle.std.specs.Prelude.{◌≡◌, ◌≤◌, Option, Some, List};
ghost use Rattle.std.specs.Option.{option_to_list};
ghost use Rattle.zs_cancel.specs.declared.outcome.Outcome.{Outcome};
ghost use Rattle.zs_cancel.specs.Tokens.{Token, Call, Ascends, Step};
ghost use Rattle.zs_cancel.specs.Runs.{Leads, given_handlers, begin_count, told_outcomes};

/// Whatever calls are made of a token's state, each told as its contract tells it: its handlers are given once at most,
/// and in ascending number, so each is run once at most; one outcome at most is told, which is the result from then on.
pub fn token_law<J>()
    ensures once { (calls : List (Call J)) (t : Token J) → Leads calls t → begin_count calls ≤ 1 }
    ensures ascending { (calls : List (Call J)) (t : Token J) → Leads calls t → Ascends 0 (given_handlers calls) t.next }
    ensures told { (calls : List (Call J)) (t : Token J) → Leads calls t → told_outcomes calls ≡ option_to_list t.outcome }
    ensures stays { (old new : Token J) (call : Call J) (outcome : Outcome) → Step old call new → old.outcome ≡ Some outcome → new.outcome ≡ Some outcome }
{}
