// Which member is looked for.
ghost use Rattle.std.specs.Prelude.{◌≡◌};
ghost use Rattle.hack_members.specs.Wanting.{tag_of};

use hack_calls::Argument;
use hack_decls::MemberTag;
use hack_types::NameId;

/// Whether a member must be static (docs/language.md, Typing expressions, Members).
#[derive(Clone, Copy)]
pub enum StaticUse {
    /// It must be.
    StaticAlone,
    /// It must not be.
    InstanceAlone,
    /// Either goes.
    AnyUse,
}

/// Of which kind a member is looked for, with what its use is given.
#[derive(Clone, Copy)]
pub enum Sought<'a> {
    /// A property.
    Property,
    /// A method, which is called.
    Method {
        /// The arguments of the call, typed.
        given: &'a [Argument],
    },
    /// A constant.
    Constant {
        /// The name that the diagnostic 4008 shows.
        shown: NameId,
    },
}

/// A member that is looked for (docs/language.md, Typing expressions, Members).
#[derive(Clone, Copy)]
pub struct Wanted<'a> {
    /// Its name.
    pub name: NameId,
    /// Whether it must be static.
    pub static_use: StaticUse,
    /// Whether it stands behind `?->`.
    pub null_safe: bool,
    /// Its kind.
    pub sought: Sought<'a>,
}

impl Sought<'_> {
    /// The kind of member by which a class is asked.
    pub(crate) fn tag(&self) -> MemberTag
        ensures { result ≡ tag_of self.now }
    {
        match self {
            Sought::Property => MemberTag::Property,
            Sought::Method { .. } => MemberTag::Method,
            Sought::Constant { .. } => MemberTag::Constant,
        }
    }
}
