//! What a script says.

use tick_model::items::Items;
use tick_model::name::Name;
use tick_model::plan::Plan;

/// A source, with the name of the file that it opens with where its line has one.
#[derive(Drop)]
pub struct SourceFile {
    /// The number of the source's node.
    pub node: u32,
    pub file: Option<Name>,
}

/// What a script says: its plan, the distinct texts of its formulas and tests in order of their first places, by whose
/// numbers the plan names them, and each source in order.
#[derive(Drop)]
pub struct Script {
    pub plan: Plan,
    pub literals: Items<Name>,
    pub files: Items<SourceFile>,
}
