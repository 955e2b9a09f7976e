use crate::pattern::Pattern;
use crate::provides::Provides;
use upd_text::{ListOf, Name, Value};

/// Values, in order.
pub type ValueList = ListOf<Value>;

/// Patterns, in order.
pub type PatternList = ListOf<Pattern>;

/// Wants, in order.
pub type WantList = ListOf<Want>;

/// Which of the provides held go. The name goes in any case.
#[derive(Drop)]
pub enum Clears {
    /// All of them.
    All,
    /// Those whose key one of the patterns matches. With no pattern that is none.
    Listed(PatternList),
}

/// What an artifact changes.
#[derive(Drop)]
pub struct Change {
    /// The artifact's name, the value of `artifact_name` from then on.
    pub name: Name,
    /// Its group, the value of `artifact_group` from then on. With none, a group that is held is
    /// cleared or stays like any other pair.
    pub group: Option<Name>,
    /// The pairs that it brings.
    pub provides: Provides,
    /// What of the provides held goes.
    pub clears: Clears,
}

/// A key, and the values that it may have. With no value allowed the want is never met.
#[derive(Drop)]
pub struct Want {
    pub key: Name,
    pub allowed: ValueList,
}
