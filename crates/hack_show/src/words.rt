// The words of what is one of a few.

use hack_tree::{
    AssignOperator, BinaryOperator, BoundKind, CastType, ClassModifier, ClassReference, Container,
    Literal, Modifier, PrefixOperator, Primitive, TestOperator, Variance, Visibility,
};
use hack_types::{Sort, Variance as Varying, Visibility as Seen};

pub(crate) fn assign(operator: AssignOperator) -> &'static str {
    match operator {
        AssignOperator::Assign => "=",
        AssignOperator::Add => "+=",
        AssignOperator::Subtract => "-=",
        AssignOperator::Multiply => "*=",
        AssignOperator::Divide => "/=",
        AssignOperator::Remainder => "%=",
        AssignOperator::Concat => ".=",
        AssignOperator::BitAnd => "&=",
        AssignOperator::BitOr => "|=",
        AssignOperator::BitXor => "^=",
        AssignOperator::Power => "**=",
        AssignOperator::Coalesce => "??=",
    }
}

pub(crate) fn binary(operator: BinaryOperator) -> &'static str {
    match operator {
        BinaryOperator::Coalesce => "??",
        BinaryOperator::Or => "||",
        BinaryOperator::And => "&&",
        BinaryOperator::BitOr => "|",
        BinaryOperator::BitXor => "^",
        BinaryOperator::BitAnd => "&",
        BinaryOperator::Equal => "==",
        BinaryOperator::NotEqual => "!=",
        BinaryOperator::Identical => "===",
        BinaryOperator::NotIdentical => "!==",
        BinaryOperator::Less => "<",
        BinaryOperator::LessEqual => "<=",
        BinaryOperator::Greater => ">",
        BinaryOperator::GreaterEqual => ">=",
        BinaryOperator::Spaceship => "<=>",
        BinaryOperator::Add => "+",
        BinaryOperator::Subtract => "-",
        BinaryOperator::Concat => ".",
        BinaryOperator::Multiply => "*",
        BinaryOperator::Divide => "/",
        BinaryOperator::Remainder => "%",
    }
}

pub(crate) fn prefix(operator: PrefixOperator) -> &'static str {
    match operator {
        PrefixOperator::Not => "!",
        PrefixOperator::Minus => "-",
        PrefixOperator::Plus => "+",
        PrefixOperator::BitNot => "~",
        PrefixOperator::Increment => "++",
        PrefixOperator::Decrement => "--",
    }
}

pub(crate) fn cast(to: CastType) -> &'static str {
    match to {
        CastType::Int => "int",
        CastType::Float => "float",
        CastType::String => "string",
        CastType::Bool => "bool",
    }
}

pub(crate) fn test(operator: TestOperator) -> &'static str {
    match operator {
        TestOperator::Is => "is",
        TestOperator::As => "as",
        TestOperator::NullAs => "?as",
    }
}

pub(crate) fn literal(literal: Literal) -> &'static str {
    match literal {
        Literal::Int => "int",
        Literal::Float => "float",
        Literal::Text => "string",
        Literal::KeyText(_) => "key",
        Literal::True => "true",
        Literal::False => "false",
        Literal::Null => "null",
    }
}

pub(crate) fn class_reference(class: ClassReference) -> &'static str {
    match class {
        ClassReference::Named(_) => "named",
        ClassReference::Self_ => "self",
        ClassReference::Static => "static",
        ClassReference::Parent => "parent",
    }
}

pub(crate) fn primitive(primitive: Primitive) -> &'static str {
    match primitive {
        Primitive::ArrayKey => "arraykey",
        Primitive::Bool => "bool",
        Primitive::Float => "float",
        Primitive::Int => "int",
        Primitive::Mixed => "mixed",
        Primitive::NonNull => "nonnull",
        Primitive::NoReturn => "noreturn",
        Primitive::Nothing => "nothing",
        Primitive::Null => "null",
        Primitive::Num => "num",
        Primitive::String => "string",
        Primitive::Void => "void",
    }
}

pub(crate) fn container(container: Container) -> &'static str {
    match container {
        Container::Vec => "vec",
        Container::Keyset => "keyset",
    }
}

pub(crate) fn visibility(visibility: Visibility) -> &'static str {
    match visibility {
        Visibility::Public => "public",
        Visibility::Protected => "protected",
        Visibility::Private => "private",
    }
}

pub(crate) fn modifier(word: Modifier) -> &'static str {
    match word {
        Modifier::Visibility(seen) => visibility(seen),
        Modifier::Abstract => "abstract",
        Modifier::Final => "final",
        Modifier::Static => "static",
    }
}

pub(crate) fn class_modifier(word: ClassModifier) -> &'static str {
    match word {
        ClassModifier::Abstract => "abstract",
        ClassModifier::Final => "final",
    }
}

pub(crate) fn sign(variance: Option<Variance>) -> &'static str {
    match variance {
        Some(Variance::Covariant) => "+",
        Some(Variance::Contravariant) => "-",
        None => "=",
    }
}

pub(crate) fn bound(kind: BoundKind) -> &'static str {
    match kind {
        BoundKind::As => "as",
        BoundKind::Super => "super",
    }
}

pub(crate) fn varying(variance: Varying) -> &'static str {
    match variance {
        Varying::Covariant => "+",
        Varying::Contravariant => "-",
        Varying::Invariant => "=",
    }
}

pub(crate) fn seen(visibility: Seen) -> &'static str {
    match visibility {
        Seen::Public => "public",
        Seen::Protected => "protected",
        Seen::Private => "private",
    }
}

pub(crate) fn sort(sort: Sort) -> &'static str {
    match sort {
        Sort::Class => "class",
        Sort::Interface => "interface",
        Sort::Trait => "trait",
    }
}
