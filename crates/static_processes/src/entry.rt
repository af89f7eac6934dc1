// Processes, and where they stand.

use lotos_ast::spec::Process;

/// A process that a specification defines.
#[derive(Drop)]
pub struct Entry<'a> {
    /// The process.
    pub process: &'a Process,
    /// The numbers of those in whose `where` parts it stands, the innermost first.
    pub around: Vec<usize>,
}
