// What the checks of one written type have around them.

use hack_shallow::Scope;
use hack_walk::Setting;
use std::alloc::Global;

/// What the parts of one written type are checked with.
#[derive(Clone, Copy)]
pub(crate) struct Around<'a> {
    pub(crate) alloc: Global,
    pub(crate) setting: &'a Setting<'a>,
    /// The names of the setting's type parameters.
    pub(crate) parameters: &'a Scope<'a, 'a>,
    /// Whether bounds are tried: the whole type has at most 256 nodes.
    pub(crate) bounds: bool,
}
