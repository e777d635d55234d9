use crate::file::FileNames;
use crate::scope::Scope;

/// A place in a text.
#[derive(Drop)]
pub struct Known {
    /// What is known at file scope.
    pub file: FileNames,
    /// What is known in the function.
    pub scope: Scope,
}
