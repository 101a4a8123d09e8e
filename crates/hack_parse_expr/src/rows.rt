// Which row of the grammar a token decides.
ghost use Rattle.std.specs.Prelude.{◌≡◌};
ghost use Rattle.hack_parse_expr.specs.Decides as spec;

use hack_lexer::{Keyword, Mark, TokenKind};
use hack_tree::{
    AssignOperator, BinaryOperator, BoundKind, CastType, ClassModifier, Container, Modifier,
    PrefixOperator, Primitive, TestOperator, Variance, Visibility,
};

/// A row of docs/language.md, Types.
#[derive(Clone, Copy, PartialEq, Eq)]
pub enum TypeRow {
    /// `?` and a type.
    Optional,
    /// A keyword such as `int`.
    Primitive(Primitive),
    /// `this`
    This,
    /// `vec` or `keyset`.
    Container(Container),
    /// `dict`
    Dict,
    /// `shape`
    Shape,
    /// A name.
    Class,
}

/// The row of a type that begins with this token, where one does.
pub(crate) fn type_row(kind: Option<TokenKind>) -> Option<TypeRow>
    ensures { result ≡ spec.type_row kind }
{
    match kind {
        Some(TokenKind::Name) => Some(TypeRow::Class),
        Some(TokenKind::Mark(Mark::Question)) => Some(TypeRow::Optional),
        Some(TokenKind::Keyword(keyword)) => type_row_of_keyword(keyword),
        _ => None,
    }
}

fn type_row_of_keyword(keyword: Keyword) -> Option<TypeRow>
    ensures { result ≡ spec.type_row_of_keyword keyword }
{
    match keyword {
        Keyword::Arraykey => Some(TypeRow::Primitive(Primitive::ArrayKey)),
        Keyword::Bool => Some(TypeRow::Primitive(Primitive::Bool)),
        Keyword::Float => Some(TypeRow::Primitive(Primitive::Float)),
        Keyword::Int => Some(TypeRow::Primitive(Primitive::Int)),
        Keyword::Mixed => Some(TypeRow::Primitive(Primitive::Mixed)),
        Keyword::Nonnull => Some(TypeRow::Primitive(Primitive::NonNull)),
        Keyword::Noreturn => Some(TypeRow::Primitive(Primitive::NoReturn)),
        Keyword::Nothing => Some(TypeRow::Primitive(Primitive::Nothing)),
        Keyword::Null => Some(TypeRow::Primitive(Primitive::Null)),
        Keyword::Num => Some(TypeRow::Primitive(Primitive::Num)),
        Keyword::String => Some(TypeRow::Primitive(Primitive::String)),
        Keyword::Void => Some(TypeRow::Primitive(Primitive::Void)),
        Keyword::This => Some(TypeRow::This),
        Keyword::Vec => Some(TypeRow::Container(Container::Vec)),
        Keyword::Keyset => Some(TypeRow::Container(Container::Keyset)),
        Keyword::Dict => Some(TypeRow::Dict),
        Keyword::Shape => Some(TypeRow::Shape),
        _ => None,
    }
}

/// A level of binary operators, the loosest first (docs/language.md, Expressions).
#[derive(Clone, Copy, PartialEq, Eq)]
pub enum Level {
    /// `??`
    Coalesce,
    /// `||`
    Or,
    /// `&&`
    And,
    /// `|`
    BitOr,
    /// `^`
    BitXor,
    /// `&`
    BitAnd,
    /// `==` and its kin
    Equality,
    /// `<` and its kin
    Relation,
    /// `+`, `-` and `.`
    Sum,
    /// `*`, `/` and `%`
    Product,
}

/// A row of docs/language.md, Expressions, that begins an operand without a prefix operator or a cast.
#[derive(Clone, Copy, PartialEq, Eq)]
pub enum PrimaryRow {
    /// `(`
    Bracket,
    /// An int.
    Int,
    /// A float.
    Float,
    /// A string that is no key string.
    Text,
    /// A key string.
    KeyText,
    /// `true`
    True,
    /// `false`
    False,
    /// `null`
    Null,
    /// A variable.
    Variable,
    /// `$this`
    This,
    /// A name.
    Name,
    /// `self`, `static` or `parent`.
    ClassWord(ClassWord),
    /// `new`
    New,
    /// `vec` or `keyset`.
    Container(Container),
    /// `dict`
    Dict,
    /// `shape`
    Shape,
}

/// A keyword that stands for a class.
#[derive(Clone, Copy, PartialEq, Eq)]
pub enum ClassWord {
    /// `self`
    Self_,
    /// `static`
    Static,
    /// `parent`
    Parent,
}

/// A row of docs/language.md, Expressions, behind an operand.
#[derive(Clone, Copy, PartialEq, Eq)]
pub enum SuffixRow {
    /// `[`
    Index,
    /// `->`
    Member,
    /// `?->`
    NullMember,
    /// `++`
    Increment,
    /// `--`
    Decrement,
}

/// A row of docs/language.md, Expressions, that has an operator before its operand.
#[derive(Clone, Copy, PartialEq, Eq)]
pub enum UnaryRow {
    /// An operator such as `!`.
    Prefix(PrefixOperator),
    /// `(int)` and its kin.
    Cast(CastType),
}

/// What counts as nesting when it is opened.
#[derive(Clone, Copy, PartialEq, Eq)]
pub enum Nested {
    /// An expression.
    Expression,
    /// An operator or a cast before its operand.
    Operated,
}

/// The assignment that this token is the operator of.
pub(crate) fn assign_operator(kind: Option<TokenKind>) -> Option<AssignOperator>
    ensures { result ≡ spec.assign_operator kind }
{
    match kind {
        Some(TokenKind::Mark(mark)) => assign_operator_of_mark(mark),
        _ => None,
    }
}

fn assign_operator_of_mark(mark: Mark) -> Option<AssignOperator>
    ensures { result ≡ spec.assign_operator_of_mark mark }
{
    match mark {
        Mark::Assign => Some(AssignOperator::Assign),
        Mark::PlusAssign => Some(AssignOperator::Add),
        Mark::MinusAssign => Some(AssignOperator::Subtract),
        Mark::StarAssign => Some(AssignOperator::Multiply),
        Mark::SlashAssign => Some(AssignOperator::Divide),
        Mark::PercentAssign => Some(AssignOperator::Remainder),
        Mark::DotAssign => Some(AssignOperator::Concat),
        Mark::AndAssign => Some(AssignOperator::BitAnd),
        Mark::OrAssign => Some(AssignOperator::BitOr),
        Mark::XorAssign => Some(AssignOperator::BitXor),
        Mark::PowerAssign => Some(AssignOperator::Power),
        Mark::CoalesceAssign => Some(AssignOperator::Coalesce),
        _ => None,
    }
}

/// The operator of this level that this token is.
pub(crate) fn operator(level: Level, kind: Option<TokenKind>) -> Option<BinaryOperator>
    ensures { result ≡ spec.operator level kind }
{
    match kind {
        Some(TokenKind::Mark(mark)) => at_level(level, binary_operator(mark)),
        _ => None,
    }
}

// The operator, if it is of this level.
fn at_level(level: Level, operator: Option<BinaryOperator>) -> Option<BinaryOperator>
    ensures { result ≡ spec.at_level level operator }
{
    match operator {
        Some(operator) if rank(level_of(operator)) == rank(level) => Some(operator),
        _ => None,
    }
}

fn binary_operator(mark: Mark) -> Option<BinaryOperator>
    ensures { result ≡ spec.binary_operator mark }
{
    match mark {
        Mark::Coalesce => Some(BinaryOperator::Coalesce),
        Mark::OrOr => Some(BinaryOperator::Or),
        Mark::AndAnd => Some(BinaryOperator::And),
        Mark::Or => Some(BinaryOperator::BitOr),
        Mark::Xor => Some(BinaryOperator::BitXor),
        Mark::And => Some(BinaryOperator::BitAnd),
        Mark::Equal => Some(BinaryOperator::Equal),
        Mark::NotEqual => Some(BinaryOperator::NotEqual),
        Mark::Identical => Some(BinaryOperator::Identical),
        Mark::NotIdentical => Some(BinaryOperator::NotIdentical),
        Mark::Less => Some(BinaryOperator::Less),
        Mark::LessEqual => Some(BinaryOperator::LessEqual),
        Mark::Greater => Some(BinaryOperator::Greater),
        Mark::GreaterEqual => Some(BinaryOperator::GreaterEqual),
        Mark::Spaceship => Some(BinaryOperator::Spaceship),
        Mark::Plus => Some(BinaryOperator::Add),
        Mark::Minus => Some(BinaryOperator::Subtract),
        Mark::Dot => Some(BinaryOperator::Concat),
        Mark::Star => Some(BinaryOperator::Multiply),
        Mark::Slash => Some(BinaryOperator::Divide),
        Mark::Percent => Some(BinaryOperator::Remainder),
        _ => None,
    }
}

fn level_of(operator: BinaryOperator) -> Level
    ensures { result ≡ spec.level_of operator }
{
    match operator {
        BinaryOperator::Coalesce => Level::Coalesce,
        BinaryOperator::Or => Level::Or,
        BinaryOperator::And => Level::And,
        BinaryOperator::BitOr => Level::BitOr,
        BinaryOperator::BitXor => Level::BitXor,
        BinaryOperator::BitAnd => Level::BitAnd,
        BinaryOperator::Equal
        | BinaryOperator::NotEqual
        | BinaryOperator::Identical
        | BinaryOperator::NotIdentical => Level::Equality,
        BinaryOperator::Less
        | BinaryOperator::LessEqual
        | BinaryOperator::Greater
        | BinaryOperator::GreaterEqual
        | BinaryOperator::Spaceship => Level::Relation,
        BinaryOperator::Add | BinaryOperator::Subtract | BinaryOperator::Concat => Level::Sum,
        BinaryOperator::Multiply | BinaryOperator::Divide | BinaryOperator::Remainder => {
            Level::Product
        }
    }
}

// How many levels are looser.
fn rank(level: Level) -> u8
    ensures { result ≡ spec.rank level }
{
    match level {
        Level::Coalesce => 0,
        Level::Or => 1,
        Level::And => 2,
        Level::BitOr => 3,
        Level::BitXor => 4,
        Level::BitAnd => 5,
        Level::Equality => 6,
        Level::Relation => 7,
        Level::Sum => 8,
        Level::Product => 9,
    }
}

/// The row that has an operator before its operand and begins with these two tokens.
pub(crate) fn unary_row(first: Option<TokenKind>, second: Option<TokenKind>) -> Option<UnaryRow>
    ensures { result ≡ spec.unary_row first second }
{
    match first {
        Some(TokenKind::Mark(Mark::OpenParen)) => cast_type(second).map(UnaryRow::Cast),
        Some(TokenKind::Mark(mark)) => prefix_operator(mark).map(UnaryRow::Prefix),
        _ => None,
    }
}

fn prefix_operator(mark: Mark) -> Option<PrefixOperator>
    ensures { result ≡ spec.prefix_operator mark }
{
    match mark {
        Mark::Not => Some(PrefixOperator::Not),
        Mark::Minus => Some(PrefixOperator::Minus),
        Mark::Plus => Some(PrefixOperator::Plus),
        Mark::Tilde => Some(PrefixOperator::BitNot),
        Mark::Increment => Some(PrefixOperator::Increment),
        Mark::Decrement => Some(PrefixOperator::Decrement),
        _ => None,
    }
}

fn cast_type(kind: Option<TokenKind>) -> Option<CastType>
    ensures { result ≡ spec.cast_type kind }
{
    match kind {
        Some(TokenKind::Keyword(Keyword::Int)) => Some(CastType::Int),
        Some(TokenKind::Keyword(Keyword::Float)) => Some(CastType::Float),
        Some(TokenKind::Keyword(Keyword::String)) => Some(CastType::String),
        Some(TokenKind::Keyword(Keyword::Bool)) => Some(CastType::Bool),
        _ => None,
    }
}

/// The test of a type that this token begins.
pub(crate) fn test_operator(kind: Option<TokenKind>) -> Option<TestOperator>
    ensures { result ≡ spec.test_operator kind }
{
    match kind {
        Some(TokenKind::Keyword(Keyword::Is)) => Some(TestOperator::Is),
        Some(TokenKind::Keyword(Keyword::As)) => Some(TestOperator::As),
        Some(TokenKind::Mark(Mark::NullAs)) => Some(TestOperator::NullAs),
        _ => None,
    }
}

/// The row behind an operand that begins with this token.
pub(crate) fn suffix_row(kind: Option<TokenKind>) -> Option<SuffixRow>
    ensures { result ≡ spec.suffix_row kind }
{
    match kind {
        Some(TokenKind::Mark(Mark::OpenBracket)) => Some(SuffixRow::Index),
        Some(TokenKind::Mark(Mark::Arrow)) => Some(SuffixRow::Member),
        Some(TokenKind::Mark(Mark::NullArrow)) => Some(SuffixRow::NullMember),
        Some(TokenKind::Mark(Mark::Increment)) => Some(SuffixRow::Increment),
        Some(TokenKind::Mark(Mark::Decrement)) => Some(SuffixRow::Decrement),
        _ => None,
    }
}

/// The row of an operand that begins with this token.
pub(crate) fn primary_row(kind: Option<TokenKind>) -> Option<PrimaryRow>
    ensures { result ≡ spec.primary_row kind }
{
    match kind {
        Some(TokenKind::Name) => Some(PrimaryRow::Name),
        Some(TokenKind::Variable) => Some(PrimaryRow::Variable),
        Some(TokenKind::This) => Some(PrimaryRow::This),
        Some(TokenKind::Int) => Some(PrimaryRow::Int),
        Some(TokenKind::Float) => Some(PrimaryRow::Float),
        Some(TokenKind::Text) => Some(PrimaryRow::Text),
        Some(TokenKind::KeyText) => Some(PrimaryRow::KeyText),
        Some(TokenKind::Mark(Mark::OpenParen)) => Some(PrimaryRow::Bracket),
        Some(TokenKind::Keyword(keyword)) => primary_row_of_keyword(keyword),
        _ => None,
    }
}

fn primary_row_of_keyword(keyword: Keyword) -> Option<PrimaryRow>
    ensures { result ≡ spec.primary_row_of_keyword keyword }
{
    match keyword {
        Keyword::True => Some(PrimaryRow::True),
        Keyword::False => Some(PrimaryRow::False),
        Keyword::Null => Some(PrimaryRow::Null),
        Keyword::Self_ => Some(PrimaryRow::ClassWord(ClassWord::Self_)),
        Keyword::Static => Some(PrimaryRow::ClassWord(ClassWord::Static)),
        Keyword::Parent => Some(PrimaryRow::ClassWord(ClassWord::Parent)),
        Keyword::New => Some(PrimaryRow::New),
        Keyword::Vec => Some(PrimaryRow::Container(Container::Vec)),
        Keyword::Keyset => Some(PrimaryRow::Container(Container::Keyset)),
        Keyword::Dict => Some(PrimaryRow::Dict),
        Keyword::Shape => Some(PrimaryRow::Shape),
        _ => None,
    }
}

/// The word for a class that this keyword is.
pub(crate) fn class_word(keyword: Keyword) -> Option<ClassWord>
    ensures { result ≡ spec.class_word keyword }
{
    match keyword {
        Keyword::Self_ => Some(ClassWord::Self_),
        Keyword::Static => Some(ClassWord::Static),
        Keyword::Parent => Some(ClassWord::Parent),
        _ => None,
    }
}

/// A row of docs/language.md, Statements.
#[derive(Clone, Copy, PartialEq, Eq)]
pub enum StatementRow {
    /// `{`
    Block,
    /// `;`
    Empty,
    /// `if`
    If,
    /// `while`
    While,
    /// `do`
    DoWhile,
    /// `for`
    For,
    /// `foreach`
    Foreach,
    /// `switch`
    Switch,
    /// `return`
    Return,
    /// `throw`
    Throw,
    /// `break`
    Break,
    /// `continue`
    Continue,
    /// `echo`
    Echo,
    /// `try`
    Try,
    /// What begins an expression.
    Expression,
}

/// A row of docs/language.md, Declarations, behind the attributes.
#[derive(Clone, Copy, PartialEq, Eq)]
pub enum DeclarationRow {
    /// `function`
    Function,
    /// `abstract`, `final` or `class`.
    Class,
    /// `interface`
    Interface,
    /// `trait`
    Trait,
    /// `enum`
    Enum,
    /// `type`
    Alias,
    /// `const`
    Constant,
}

/// A row of a member, behind its attributes and modifiers.
#[derive(Clone, Copy, PartialEq, Eq)]
pub enum MemberRow {
    /// `const`
    Constant,
    /// `function`
    Method,
    /// What begins a type.
    Property,
}

/// The row of a statement that begins with these two tokens.
pub fn statement_row(first: Option<TokenKind>, second: Option<TokenKind>) -> Option<StatementRow>
    ensures { result ≡ spec.statement_row first second }
{
    match first {
        Some(TokenKind::Mark(Mark::OpenBrace)) => Some(StatementRow::Block),
        Some(TokenKind::Mark(Mark::Semicolon)) => Some(StatementRow::Empty),
        Some(TokenKind::Keyword(keyword)) => statement_row_of_keyword(keyword),
        _ if unary_row(first, second).is_some() || primary_row(first).is_some() => {
            Some(StatementRow::Expression)
        }
        _ => None,
    }
}

fn statement_row_of_keyword(keyword: Keyword) -> Option<StatementRow>
    ensures { result ≡ spec.statement_row_of_keyword keyword }
{
    match keyword {
        Keyword::If => Some(StatementRow::If),
        Keyword::While => Some(StatementRow::While),
        Keyword::Do => Some(StatementRow::DoWhile),
        Keyword::For => Some(StatementRow::For),
        Keyword::Foreach => Some(StatementRow::Foreach),
        Keyword::Switch => Some(StatementRow::Switch),
        Keyword::Return => Some(StatementRow::Return),
        Keyword::Throw => Some(StatementRow::Throw),
        Keyword::Break => Some(StatementRow::Break),
        Keyword::Continue => Some(StatementRow::Continue),
        Keyword::Echo => Some(StatementRow::Echo),
        Keyword::Try => Some(StatementRow::Try),
        _ => primary_row_of_keyword(keyword).map(|_row| StatementRow::Expression),
    }
}

/// The row of a declaration that begins with this token, behind the attributes.
pub fn declaration_row(kind: Option<TokenKind>) -> Option<DeclarationRow>
    ensures { result ≡ spec.declaration_row kind }
{
    match kind {
        Some(TokenKind::Keyword(Keyword::Function)) => Some(DeclarationRow::Function),
        Some(TokenKind::Keyword(Keyword::Abstract | Keyword::Final | Keyword::Class)) => {
            Some(DeclarationRow::Class)
        }
        Some(TokenKind::Keyword(Keyword::Interface)) => Some(DeclarationRow::Interface),
        Some(TokenKind::Keyword(Keyword::Trait)) => Some(DeclarationRow::Trait),
        Some(TokenKind::Keyword(Keyword::Enum)) => Some(DeclarationRow::Enum),
        Some(TokenKind::Keyword(Keyword::Type_)) => Some(DeclarationRow::Alias),
        Some(TokenKind::Keyword(Keyword::Const)) => Some(DeclarationRow::Constant),
        _ => None,
    }
}

/// The row of a member that begins with this token, behind its attributes and modifiers.
pub fn member_row(kind: Option<TokenKind>) -> Option<MemberRow>
    ensures { result ≡ spec.member_row kind }
{
    match kind {
        Some(TokenKind::Keyword(Keyword::Const)) => Some(MemberRow::Constant),
        Some(TokenKind::Keyword(Keyword::Function)) => Some(MemberRow::Method),
        _ => type_row(kind).map(|_row| MemberRow::Property),
    }
}

/// The visibility that this token is.
pub fn visibility(kind: Option<TokenKind>) -> Option<Visibility>
    ensures { result ≡ spec.visibility kind }
{
    match kind {
        Some(TokenKind::Keyword(Keyword::Public)) => Some(Visibility::Public),
        Some(TokenKind::Keyword(Keyword::Protected)) => Some(Visibility::Protected),
        Some(TokenKind::Keyword(Keyword::Private)) => Some(Visibility::Private),
        _ => None,
    }
}

/// The word before a member that this token is.
pub fn modifier(kind: Option<TokenKind>) -> Option<Modifier>
    ensures { result ≡ spec.modifier kind }
{
    match kind {
        Some(TokenKind::Keyword(Keyword::Public)) => {
            Some(Modifier::Visibility(Visibility::Public))
        }
        Some(TokenKind::Keyword(Keyword::Protected)) => {
            Some(Modifier::Visibility(Visibility::Protected))
        }
        Some(TokenKind::Keyword(Keyword::Private)) => {
            Some(Modifier::Visibility(Visibility::Private))
        }
        Some(TokenKind::Keyword(Keyword::Abstract)) => Some(Modifier::Abstract),
        Some(TokenKind::Keyword(Keyword::Final)) => Some(Modifier::Final),
        Some(TokenKind::Keyword(Keyword::Static)) => Some(Modifier::Static),
        _ => None,
    }
}

/// The word before `class` that this token is.
pub fn class_modifier(kind: Option<TokenKind>) -> Option<ClassModifier>
    ensures { result ≡ spec.class_modifier kind }
{
    match kind {
        Some(TokenKind::Keyword(Keyword::Abstract)) => Some(ClassModifier::Abstract),
        Some(TokenKind::Keyword(Keyword::Final)) => Some(ClassModifier::Final),
        _ => None,
    }
}

/// The sign before a type parameter that this token is.
pub fn variance(kind: Option<TokenKind>) -> Option<Variance>
    ensures { result ≡ spec.variance kind }
{
    match kind {
        Some(TokenKind::Mark(Mark::Plus)) => Some(Variance::Covariant),
        Some(TokenKind::Mark(Mark::Minus)) => Some(Variance::Contravariant),
        _ => None,
    }
}

/// The word before a bound that this token is.
pub fn bound_kind(kind: Option<TokenKind>) -> Option<BoundKind>
    ensures { result ≡ spec.bound_kind kind }
{
    match kind {
        Some(TokenKind::Keyword(Keyword::As)) => Some(BoundKind::As),
        Some(TokenKind::Keyword(Keyword::Super)) => Some(BoundKind::Super),
        _ => None,
    }
}
