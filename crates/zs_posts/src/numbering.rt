//! The table of a room's gates: what its seats know, its rule, and its kinds of step.

use atomic_table::{Join, Play, Split, TableRule};
use zs_gate::Keeper;

// What one seat knows. No value of it is made, and of a keeper only its gate counts.
pub enum View {
    Blank,
    Tag {
        number: u64,
        gate: Keeper,
    },
    // A tag that was joined with another one of its number.
    Both {
        number: u64,
        gate: Keeper,
        other: Keeper,
    },
}

pub struct Rule;

impl TableRule<Keeper, View, ()> for Rule {
    ghost use Rattle.zs_posts.specs.declared.numbering.View.TheVariants.{Blank};
    ghost use Rattle.zs_posts.specs.Numbering.{Kept};

    ghost holds = { λ _. Kept };

    ghost first = { λ _. Blank };
}

pub struct Sit;

impl Play<Keeper, View> for Sit {
    ghost use Rattle.zs_posts.specs.Numbering.{Sits};

    ghost then = { Sits };
}

pub struct Draw;

impl Play<Keeper, View> for Draw {
    ghost use Rattle.zs_posts.specs.Numbering.{Draws};

    ghost then = { Draws };
}

pub struct Compare;

impl Play<Keeper, View> for Compare {
    ghost use Rattle.zs_posts.specs.Numbering.{Compares};

    ghost then = { Compares };
}

// A second seat that knows the same.
pub struct Copy;

impl Split<View> for Copy {
    ghost left = { λ v. v };

    ghost right = { λ v. v };
}

// Two tags are laid beside each other.
pub struct Pair;

impl Join<View> for Pair {
    ghost use Rattle.zs_posts.specs.declared.numbering.View.TheVariants.{Blank};
    ghost use Rattle.zs_posts.specs.Numbering.{both};

    ghost both = { both };

    ghost spent = { Blank };
}
