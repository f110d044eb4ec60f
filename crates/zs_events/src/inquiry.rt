//! What a get asks, and how.
use zs_sample::{ConsolidationMode, Locality, QoSType, QueryTarget, SourceInfo, Text, ZBytes};
use zs_wire::Value;

/// How a get asks, or a querier with all its gets.
#[derive(Clone, Copy, Debug, PartialEq, Eq)]
pub struct QuerySettings {
    /// Whose queryables are asked.
    pub destination: Locality,
    pub target: QueryTarget,
    pub consolidation: ConsolidationMode,
    /// After how many milliseconds a get ends whatever is missing, in place of what the session's settings say.
    pub timeout: Option<u64>,
    pub qos: QoSType,
    /// Whether replies are taken on any key. The parameters can say so too.
    pub any_key: bool,
}

/// What a get asks.
#[derive(Debug)]
pub struct Inquiry {
    /// What stands behind the `?` of the selector.
    pub parameters: Text,
    /// What the queryables are told beside the parameters.
    pub value: Option<Value>,
    pub source: Option<SourceInfo>,
    /// Bytes of the application's own beside the value.
    pub attachment: Option<ZBytes>,
    /// The cancellation token by which it can be cancelled.
    pub cancellation_token: Option<u32>,
}

impl Drop for Inquiry {
    /// Lets go of the parameters, the value and the attachment.
    fn drop(self) {
        let Inquiry {
            parameters,
            value,
            source: _,
            attachment,
            cancellation_token: _,
        } = self;
        drop(parameters);
        drop(value);
        drop(attachment);
    }
}
