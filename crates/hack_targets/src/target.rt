// Targets whose parts were typed.
ghost use Rattle.std.specs.Prelude.{◌≡◌, IfOk};
ghost use Rattle.hack_rules.specs.Meanings as aim;
ghost use Rattle.hack_targets.specs.inside.Aims.{aim_of};

use crate::Index;
use crate::steps::{Root, Step};
use hack_types::{HackType, NameId, NoMemory, Place};
use std::alloc::Global;
use std::marker::Model;

/// A target whose parts were typed (docs/language.md, Typing expressions, Assignment): what stands innermost, and the elements of it, one
/// of another, so that a deep target takes no boxes.
#[derive(Drop)]
pub struct Target {
    root: Root,
    steps: Vec<Step>,
}

impl Model for Target {
    ghost use Rattle.hack_rules.specs.Meanings as meanings;
    ghost use Rattle.hack_targets.specs.inside.Codes.{aim_code};
    ghost use Rattle.hack_targets.specs.inside.Aims.{aim_of};

    ghost Value = { meanings.Aim };

    ghost coded = { aim_code };

    ghost view = { λ target. aim_of target.root target.steps.items };
}

impl Target {
    /// A variable, whose name stands at this place.
    pub fn variable(alloc: Global, at: Place, name: NameId) -> Target
        ensures { result ≡ aim.variable at name }
    {
        Target {
            root: Root::Variable(at, name),
            steps: Vec::new(alloc),
        }
    }

    /// A property of this type.
    pub fn property(alloc: Global, ty: HackType) -> Target
        ensures { result ≡ aim.property ty }
    {
        Target {
            root: Root::Property(ty),
            steps: Vec::new(alloc),
        }
    }

    /// What can't be assigned to, at this place and of this type.
    pub fn other(alloc: Global, at: Place, ty: HackType) -> Target
        ensures { result ≡ aim.other at ty }
    {
        Target {
            root: Root::Other(at, ty),
            steps: Vec::new(alloc),
        }
    }

    /// An element of this target, which as a value is of this type; without an index behind the last one. An error says that memory ran
    /// out.
    pub fn element(self, at: Place, ty: HackType, index: Option<Index>) -> Result<Target, NoMemory>
        ensures { IfOk result (λ target. target ≡ aim.element at self ty index) }
    {
        let Target { root, mut steps } = self;
        steps.push(Step { at, ty, index })?;
        Ok(Target { root, steps })
    }

    /// What stands innermost, and the steps behind it.
    pub(crate) fn parts(&self) -> (&Root, &[Step])
        ensures { self.now ≡ aim_of result.0.now result.1.now }
    {
        (&self.root, self.steps.as_slice())
    }

    /// The same, taken out.
    pub(crate) fn into_parts(self) -> (Root, Vec<Step>)
        ensures { self ≡ aim_of result.0 result.1.items }
    {
        let Target { root, steps } = self;
        (root, steps)
    }
}
