//! The kinds of entities that are grouped.
/// What kind of entities share a declaration.
#[derive(Clone, Copy)]
pub enum GroupKind {
    Subscribers,
    Publishers,
    Queriers,
}
