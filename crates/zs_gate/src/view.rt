//! The table of a gate: what its seats know, its rule, and its kinds of step: enter, retreat, leave, drain, look, and the
//! cut and the union of seats, each of which is one step on the word.
use atomic_table::{Join, Play, Split, TableRule};

// How far a keeper has come.
pub enum Phase {
    Open,
    Draining { looks: u64, count: u64 },
    Drained,
}

// What one seat knows. No value of it is made.
pub enum View {
    Keeper { has_door: bool, phase: Phase },
    // How many of its passes are out.
    Door(u64),
    // A pass, and whether its last step found the mark.
    Out { noted: bool },
    Inside,
    // A pass that found the mark and has yet to step back.
    Knock,
    Spent,
}

pub struct Rule;

impl TableRule<(), View, ()> for Rule {
    ghost use Rattle.std.specs.Prelude.{true};
    ghost use Rattle.zs_gate.specs.declared.view.View.TheVariants.{Keeper};
    ghost use Rattle.zs_gate.specs.declared.view.Phase.TheVariants.{Open};
    ghost use Rattle.zs_gate.specs.Rule.{Kept};

    ghost holds = { λ _. Kept };

    ghost first = { λ _. Keeper true Open };
}

pub struct Enter;

impl Play<(), View> for Enter {
    ghost use Rattle.zs_gate.specs.Plays.{Enters};

    ghost then = { Enters };
}

pub struct Retreat;

impl Play<(), View> for Retreat {
    ghost use Rattle.zs_gate.specs.Plays.{Retreats};

    ghost then = { Retreats };
}

pub struct Leave;

impl Play<(), View> for Leave {
    ghost use Rattle.zs_gate.specs.Plays.{Leaves};

    ghost then = { Leaves };
}

pub struct Drain;

impl Play<(), View> for Drain {
    ghost use Rattle.zs_gate.specs.Plays.{Drains};

    ghost then = { Drains };
}

pub struct Look;

impl Play<(), View> for Look {
    ghost use Rattle.zs_gate.specs.Plays.{Looks};

    ghost then = { Looks };
}

// The look of a keeper that has taken the door in.
pub struct LookAlone;

impl Play<(), View> for LookAlone {
    ghost use Rattle.zs_gate.specs.Plays.{LooksAlone};

    ghost then = { LooksAlone };
}

// A look that shows a number to be within the rule's bound.
pub struct Check;

impl Play<(), View> for Check {
    ghost use Rattle.zs_gate.specs.Plays.{Checks};

    ghost then = { Checks };
}

// The keeper gives the door out, once, as the gate opens.
pub struct GiveDoor;

impl Split<View> for GiveDoor {
    ghost use Rattle.std.specs.Prelude.{false};
    ghost use Rattle.zs_gate.specs.declared.view.View.TheVariants.{Keeper, Door};
    ghost use Rattle.zs_gate.specs.declared.view.Phase.TheVariants.{Open};

    ghost left = { λ _. Keeper false Open };

    ghost right = { λ _. Door 0 };
}

// The keeper takes in a door of number 0.
pub struct TakeDoor;

impl Join<View> for TakeDoor {
    ghost use Rattle.std.specs.Prelude.{true};
    ghost use Rattle.zs_gate.specs.declared.view.View.TheVariants.{Keeper, Spent};
    ghost use Rattle.zs_gate.specs.declared.view.Phase.TheVariants.{Open};

    ghost both = { λ _ _. Keeper true Open };

    ghost spent = { Spent };
}

// The door gives a pass out.
pub struct GivePass;

impl Split<View> for GivePass {
    ghost use Rattle.std.specs.Prelude.{false};
    ghost use Rattle.zs_gate.specs.declared.view.View.TheVariants.{Out};
    ghost use Rattle.zs_gate.specs.Plays.{one_more};

    ghost left = { one_more };

    ghost right = { λ _. Out false };
}

// The door takes a pass in.
pub struct TakePass;

impl Join<View> for TakePass {
    ghost use Rattle.zs_gate.specs.declared.view.View.TheVariants.{Spent};
    ghost use Rattle.zs_gate.specs.Plays.{one_less};

    ghost both = { one_less };

    ghost spent = { Spent };
}

// Two seats that the rule shuts out beside each other: the joined view is one that it refuses.
pub struct Clash;

impl Join<View> for Clash {
    ghost use Rattle.std.specs.Prelude.{◌^◌};
    ghost use Rattle.zs_gate.specs.declared.view.View.TheVariants.{Door, Spent};

    ghost both = { λ _ _. Door (2 ^ 32) };

    ghost spent = { Spent };
}
