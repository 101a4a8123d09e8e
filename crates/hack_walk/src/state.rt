// The variables at a point of a body, and the diagnostics up to there.
ghost use Rattle.std.specs.Prelude.{◌≡◌, ◌++◌, ◌∷◌, [], IfOk, OnOk, option_copied};
ghost use Rattle.hack_rules.specs.Variables.{type_in, with_variable};

use crate::Variables;
use hack_types::{Diag, HackType, NameId, NoMemory};
use std::alloc::Global;
use std::marker::Model;
use std::mem;

/// The variables at a point of a body, and the diagnostics up to there (docs/language.md, Typing expressions).
#[derive(Drop)]
pub struct State {
    variables: Variables,
    found: Vec<Diag>,
}

impl Model for State {
    ghost use Rattle.hack_rules.specs.Walks as walks;
    ghost use Rattle.hack_walk.specs.inside.Codes.{state_code};

    ghost Value = { walks.State };

    ghost coded = { state_code };

    ghost view = { λ state. record { variables = state.variables; found = state.found.items } };
}

impl State {
    /// These variables, and no diagnostics. It takes no memory.
    pub fn new(alloc: Global, variables: Variables) -> State
        ensures variables { result.variables ≡ variables }
        ensures found { result.found ≡ [] }
    {
        State {
            variables,
            found: Vec::new(alloc),
        }
    }

    /// The variables here, to be read.
    pub fn variables(&self) -> &Variables
        ensures { result.now ≡ self.now.variables }
    {
        &self.variables
    }

    /// The type that a variable has here.
    pub fn variable_here(&self, name: NameId) -> Option<&HackType>
        ensures { option_copied result ≡ type_in self.now.variables name }
    {
        self.variables.type_in(name)
    }

    /// A variable gets a type.
    pub fn assign(&mut self, name: NameId, ty: HackType) -> Result<(), NoMemory>
        ensures variables { OnOk result
            (self.new.variables ≡ with_variable self.old.variables name ty) }
        ensures found { self.new.found ≡ self.old.found }
    {
        self.variables.put(name, ty)
    }

    /// These are the variables from here on.
    pub fn replace(&mut self, variables: Variables)
        ensures variables { self.new.variables ≡ variables }
        ensures found { self.new.found ≡ self.old.found }
    {
        self.variables = variables;
    }

    /// Takes the variables out, so that none are left.
    pub fn take_variables(&mut self, alloc: Global) -> Variables
        ensures taken { result ≡ self.old.variables }
        ensures variables { self.new.variables ≡ [] }
        ensures found { self.new.found ≡ self.old.found }
    {
        mem::replace(&mut self.variables, Variables::new(alloc))
    }

    /// A diagnostic goes behind those that stand.
    pub fn report(&mut self, diag: Diag) -> Result<(), NoMemory>
        ensures variables { self.new.variables ≡ self.old.variables }
        ensures found { OnOk result (self.new.found ≡ self.old.found ++ diag ∷ []) }
    {
        self.found.push(diag)?;
        Ok(())
    }

    /// The variables and the diagnostics.
    pub fn into_parts(self) -> (Variables, Vec<Diag>)
        ensures variables { result.0 ≡ self.variables }
        ensures found { result.1.items ≡ self.found }
    {
        let State { variables, found } = self;
        (variables, found)
    }
}
