//! The law by which callers know whether an event is answered a number.

ghost use Rattle.zs_held.specs.Numbers.{NumbersAreTold};

use zs_core::answers_are_numbered;

/// An accepted event is answered a number exactly where its kind draws one, or asks for a status.
pub fn numbers_are_told()
    ensures { NumbersAreTold }
{
    answers_are_numbered();
}
