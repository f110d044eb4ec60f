//! Queries as messages carry them.
ghost use Rattle.std.specs.Prelude.{◌≡◌, IfOk};

use crate::body::{Value, clone_attachment};
use crate::origin::SourceInfo;
use crate::quality::QoSType;
use crate::wire_expr::WireExpr;
use std::alloc::{AllocError, Global};
use zs_bytes::{Text, ZBytes};

/// Which queryables a query is for.
#[derive(Clone, Copy, Debug, Default, PartialEq, Eq, Hash)]
pub enum QueryTarget {
    /// Those that a router chooses: the nearest complete one, or all where none is complete. Of its own queryables a
    /// session asks each that matches.
    #[default]
    BestMatching,
    All,
    /// All that are complete: that have the values of every key that theirs includes.
    AllComplete,
}

/// Which of the replies on one key a get hands out.
#[derive(Clone, Copy, Debug, Default, PartialEq, Eq, Hash)]
pub enum ConsolidationMode {
    /// What suits the query: `None` where it names a time range, `Latest` otherwise.
    #[default]
    Auto,
    /// All, as they come.
    None,
    /// Those that aren't older than what was handed out before, as they come. One without a timestamp is handed out.
    Monotonic,
    /// The newest alone, once all have come.
    Latest,
}

/// A query on a key.
#[derive(Debug)]
pub struct Request {
    /// The query's number, which its responses repeat.
    pub rid: u32,
    pub wire: WireExpr,
    /// What stands behind the `?` of the selector.
    pub parameters: Text,
    pub target: QueryTarget,
    pub consolidation: ConsolidationMode,
    /// After how many milliseconds the asker stops to wait.
    pub timeout: u64,
    /// What the asker tells the queryables beside the parameters.
    pub value: Option<Value>,
    pub qos: QoSType,
    pub source: Option<SourceInfo>,
    pub attachment: Option<ZBytes>,
}

impl Drop for Request {
    /// Gives up the key, the parameters, the value and the attachment. Memory that copies share stays.
    fn drop(self) {
        let Request {
            rid: _,
            wire,
            parameters,
            target: _,
            consolidation: _,
            timeout: _,
            value,
            qos: _,
            source: _,
            attachment,
        } = self;
        drop(wire);
        drop(parameters);
        drop(value);
        drop(attachment);
    }
}

impl Request {
    /// The same query. It shares the memory of the value's payload and the attachment.
    pub fn try_clone(&self, alloc: Global) -> Result<Request, AllocError>
        ensures { IfOk result (λ copy. copy ≡ self.now) }
    {
        let wire = self.wire.try_clone(alloc)?;
        let parameters = self.parameters.try_clone(alloc)?;
        let value = clone_value(&self.value, alloc)?;
        let attachment = clone_attachment(&self.attachment, alloc)?;
        Ok(Request {
            rid: self.rid,
            wire,
            parameters,
            target: self.target,
            consolidation: self.consolidation,
            timeout: self.timeout,
            value,
            qos: self.qos,
            source: self.source,
            attachment,
        })
    }
}

/// The same value, where there is one.
fn clone_value(value: &Option<Value>, alloc: Global) -> Result<Option<Value>, AllocError>
    ensures { IfOk result (λ copy. copy ≡ value.now) }
{
    match value {
        Some(value) => Ok(Some(value.try_clone(alloc)?)),
        None => Ok(None),
    }
}
