//! The parameters that Zenoh itself reads.

ghost use Rattle.std.specs.Prelude.{◌≡◌, ℕ, List, [], OnOk, OnErr, option_copied};
ghost use Rattle.zs_wire.specs.Parameters.{value_of, contains_name, text_with, text_at_time, time_name, any_key_name};

use crate::parameters::Parameters;
use std::alloc::{AllocError, Global};

/// The name of the range of time that a query asks for.
const TIME_RANGE: &str = "_time";

/// The name that says that a query takes replies on any key.
const REPLY_KEY_EXPR_ANY: &str = "_anyke";

/// The parameters whose names Zenoh reserves: `_time`, the range of time that a query asks for, and `_anyke`, which says
/// that a query takes replies on keys that don't match its own.
pub trait ZenohParameters {
    // the text of the parameters
    ghost text: { Self → List ℕ };

    /// Sets the range of time, or takes it away. The range is a text of any form.
    fn set_time_range(&mut self, alloc: Global, range: Option<&str>) -> Result<(), AllocError>
        ensures ok { OnOk result (text self.new ≡ text_at_time (option_copied range.entry) (text self.old)) }
        ensures err { OnErr result (text self.new ≡ text self.old) };

    /// The range of time, as its text.
    fn time_range(&self) -> Option<&str>
        ensures { option_copied result ≡ value_of time_name (text self.now) };

    /// Says that replies on any key are taken.
    fn set_reply_key_expr_any(&mut self, alloc: Global) -> Result<(), AllocError>
        ensures ok { OnOk result (text self.new ≡ text_with any_key_name [] (text self.old)) }
        ensures err { OnErr result (text self.new ≡ text self.old) };

    /// Whether replies on any key are taken.
    fn reply_key_expr_any(&self) -> bool
        ensures { result ≡ contains_name any_key_name (text self.now) };
}

impl<'a> ZenohParameters for Parameters<'a> {
    ghost text = { λ parameters. parameters };

    /// Puts `_time` behind all other pairs in place of those of that name, or takes those away.
    fn set_time_range(&mut self, alloc: Global, range: Option<&str>) -> Result<(), AllocError> {
        match range {
            Some(range) => self.insert(alloc, TIME_RANGE, range),
            None => {
                self.remove(alloc, TIME_RANGE)?;
                Ok(())
            }
        }
    }

    /// The value of the first `_time`. Whether it is a range is not tested.
    fn time_range(&self) -> Option<&str> {
        self.get(TIME_RANGE)
    }

    /// Puts `_anyke` with the empty value behind all other pairs, in place of those of that name.
    fn set_reply_key_expr_any(&mut self, alloc: Global) -> Result<(), AllocError> {
        self.insert(alloc, REPLY_KEY_EXPR_ANY, "")
    }

    /// Whether there is an `_anyke`, of whatever value.
    fn reply_key_expr_any(&self) -> bool {
        self.contains_key(REPLY_KEY_EXPR_ANY)
    }
}
