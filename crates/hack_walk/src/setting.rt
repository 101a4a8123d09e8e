// What stays the same in a body.

use hack_sub::Scope;
use hack_types::Names;

/// What stays the same in a body: the names, and the class and the function around it (docs/language.md, Typing expressions).
#[derive(Clone, Copy)]
pub struct Setting<'a> {
    /// The names, by their ids.
    pub names: &'a Names,
    /// The class and the function, with their type parameters.
    pub scope: &'a Scope,
}
