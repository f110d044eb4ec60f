//! Cancellation tokens: of each the session keeps no more than whether it was taken.

ghost use Rattle.std.specs.Prelude.{◌≡◌, OnOk, OnErr};
ghost use Rattle.zs_world.specs.Changes.{CancellationFits, with_change};

use super::SessionTables;
use crate::change::{CancellationChange, Change};
use std::alloc::AllocError;

impl SessionTables {
    /// Makes a change of the cancellation tokens. Drawing one takes no memory, taking one may.
    pub(super) fn change_cancellation(
        &mut self,
        change: CancellationChange,
    ) -> Result<(), AllocError>
        requires { CancellationFits self.old change }
        ensures ok { OnOk result (self.new ≡ with_change (Change.OfCancellation change) self.old) }
        ensures err { OnErr result (self.new ≡ self.old) }
    {
        match change {
            CancellationChange::Draw => {
                self.next_cancellation_token += 1;
                Ok(())
            }
            CancellationChange::Take { cancellation_token } => self.take_cancellation_token(
                cancellation_token,
            ),
        }
    }

    /// A cancellation token is taken, and its gets end, those of tokens too.
    fn take_cancellation_token(&mut self, cancellation_token: u32) -> Result<(), AllocError>
        ensures ok { OnOk result (self.new ≡ with_change (Change.OfCancellation (CancellationChange.Take cancellation_token)) self.old) }
        ensures err { OnErr result (self.new ≡ self.old) }
    {
        self.taken_cancellation_tokens.insert(cancellation_token)?;
        self.asking.end_cancelled_by(cancellation_token);
        self.liveliness.end_cancelled_by(cancellation_token);
        Ok(())
    }
}
