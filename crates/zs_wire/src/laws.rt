//! Laws of the definitions. Each function does nothing: its contract is the law, for all texts.

ghost use Rattle.zs_wire.specs.Laws.{GivesInserted, InsertKeepsOther, RemovesAll, RemoveKeepsOther};

/// A name that was inserted has the value that was inserted with it.
pub fn insert_gives_value(text: &str, name: &str, value: &str)
    ensures { GivesInserted name.now value.now text.now }
{}

/// To insert a pair changes the value of no other name.
pub fn insert_keeps_other_names(text: &str, name: &str, value: &str, other: &str)
    ensures { InsertKeepsOther name.now value.now text.now other.now }
{}

/// A name that was removed is there no more, however often it was there.
pub fn remove_takes_all(text: &str, name: &str)
    ensures { RemovesAll name.now text.now }
{}

/// To remove a name changes the value of no other name.
pub fn remove_keeps_other_names(text: &str, name: &str, other: &str)
    ensures { RemoveKeepsOther name.now text.now other.now }
{}
