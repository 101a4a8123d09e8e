// Codes of diagnostics.
ghost use Rattle.std.specs.Prelude.{◌≡◌};
ghost use Rattle.hack_codes.specs.Numbers.{number};

/// What a diagnostic says, by the rule that is broken (docs/language.md, Diagnostics).
#[derive(Clone, Copy)]
pub enum Code {
    /// No token starts here, or a comment or a string is not closed.
    NoToken,
    /// No row of the grammar goes on with this token.
    UnexpectedToken,
    /// An integer literal above 2^63 - 1.
    IntTooLarge,
    /// Rows that count as nesting stand in more than 128 of them.
    TooDeep,
    /// The file ends where a token is needed.
    UnexpectedEnd,
    /// Another declaration of this name counts.
    NameTaken,
    /// Nothing declares a type of this name.
    UnboundType,
    /// The type takes another number of arguments.
    OtherArguments,
    /// Another type parameter before it has this name.
    ParameterTaken,
    /// A trait stands where a type is needed.
    TraitAsType,
    /// An alias comes to itself through the aliases in its body.
    AliasInItself,
    /// A written type has more than 256 nodes.
    TooBig,
    /// What stands above a class comes back to it, or has more than 256 names.
    BadHierarchy,
    /// What is declared cannot be a parent of this sort.
    BadParent,
    /// A final class is extended.
    FinalParent,
    /// Another member of its kind before it has this name.
    MemberTaken,
    /// An abstract member stays abstract in a class that is not.
    NoImplementation,
    /// A method that says it overrides one overrides none.
    OverridesNothing,
    /// A final method of a parent is overridden.
    FinalMethod,
    /// A method cannot stand for the one of the parent.
    MethodMisfit,
    /// A property has another type than that of the parent.
    PropertyMisfit,
    /// A member is less visible than that of the parent.
    LessVisible,
    /// A type parameter stands where its variance does not allow it.
    WrongVariance,
    /// A type argument is not within the bounds of its parameter.
    OutOfBounds,
    /// A property or a method does not say how visible it is.
    NoVisibility,
    /// A method that is not abstract has no body.
    BodyMissing,
    /// An abstract method, or one of an interface, has a body.
    BodyUnwanted,
    /// A function or a method does not say what it returns.
    NoReturnType,
    /// The type of a constant is not below that of the parent.
    ConstantMisfit,
    /// The base of an enum is another type.
    EnumBase,
    /// The bound of an enum is another type than its base.
    EnumBound,
    /// Modifiers that cannot stand together, or not there.
    ModifiersMisfit,
    /// A type is expected where another was found.
    Expected,
    /// Nothing declares a function of this name.
    UnboundFunction,
    /// Nothing declares a constant of this name.
    UnboundConstant,
    /// A call has too few arguments, or too many.
    OtherCount,
    /// The variable is not defined on every path to here.
    UndefinedVariable,
    /// The type has no method of this name.
    NoMethod,
    /// The type has no property of this name.
    NoProperty,
    /// The class has no constant of this name.
    NoConstant,
    /// The member is private or protected, and this is not the place for it.
    NotVisible,
    /// A value is used that may be null.
    MayBeNull,
    /// There can be no object of exactly this class.
    NotInstantiable,
    /// An operator does not take these two operands.
    OperatorRefuses,
    /// A value of this type has no elements to be had so.
    NotIndexed,
    /// The shape has no such field.
    NoField,
    /// The shape may be without this field.
    FieldMayMiss,
    /// Nothing can be assigned to the expression.
    NotAssignable,
    /// The end of a body is reached that has to return.
    NoReturn,
    /// A static member is used as one of an object, or the other way round.
    AgainstStatic,
    /// A word that ends a turn or a loop stands in none.
    OutsideLoop,
    /// A word stands where it means nothing.
    NotAllowed,
    /// A loop cannot go over a value of this type.
    NotIterated,
    /// A loop stands in more than eight.
    TooManyLoops,
    /// A shape has this field twice.
    FieldTwice,
}

impl Code {
    /// The number that a report has for it (docs/language.md, Diagnostics).
    pub const fn number(self) -> u16
        ensures { result ≡ number self }
    {
        match self {
            Code::NoToken => 1001,
            Code::UnexpectedToken => 1002,
            Code::IntTooLarge => 1003,
            Code::TooDeep => 1004,
            Code::UnexpectedEnd => 1005,
            Code::NameTaken => 2001,
            Code::UnboundType => 3001,
            Code::OtherArguments => 3002,
            Code::ParameterTaken => 3003,
            Code::TraitAsType => 3004,
            Code::AliasInItself => 3005,
            Code::TooBig => 3006,
            Code::BadHierarchy => 3201,
            Code::BadParent => 3202,
            Code::FinalParent => 3203,
            Code::MemberTaken => 3204,
            Code::NoImplementation => 3205,
            Code::OverridesNothing => 3206,
            Code::FinalMethod => 3207,
            Code::MethodMisfit => 3208,
            Code::PropertyMisfit => 3209,
            Code::LessVisible => 3210,
            Code::WrongVariance => 3211,
            Code::OutOfBounds => 3212,
            Code::NoVisibility => 3213,
            Code::BodyMissing => 3215,
            Code::BodyUnwanted => 3216,
            Code::NoReturnType => 3217,
            Code::ConstantMisfit => 3218,
            Code::EnumBase => 3219,
            Code::EnumBound => 3220,
            Code::ModifiersMisfit => 3221,
            Code::Expected => 4001,
            Code::UnboundFunction => 4002,
            Code::UnboundConstant => 4003,
            Code::OtherCount => 4004,
            Code::UndefinedVariable => 4005,
            Code::NoMethod => 4006,
            Code::NoProperty => 4007,
            Code::NoConstant => 4008,
            Code::NotVisible => 4009,
            Code::MayBeNull => 4010,
            Code::NotInstantiable => 4011,
            Code::OperatorRefuses => 4012,
            Code::NotIndexed => 4013,
            Code::NoField => 4014,
            Code::FieldMayMiss => 4015,
            Code::NotAssignable => 4016,
            Code::NoReturn => 4017,
            Code::AgainstStatic => 4018,
            Code::OutsideLoop => 4019,
            Code::NotAllowed => 4020,
            Code::NotIterated => 4021,
            Code::TooManyLoops => 4022,
            Code::FieldTwice => 4023,
        }
    }
}
