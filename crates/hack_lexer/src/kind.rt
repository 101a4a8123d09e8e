// What the sort of a token means.
ghost use Rattle.std.specs.Prelude.{◌≡◌, ◌==◌, ◌≤◌, ◌+◌, MatchOption};
ghost use Rattle.hack_lexer.specs.Kinds.{number_of_mark, number_of_keyword, sort_of_kind};
ghost use Rattle.hack_lexer.specs.declared.kind.TokenKind.TheVariants as kinds;

/// A mark.
#[derive(Clone, Copy, PartialEq, Eq)]
pub enum Mark {
    /// `{`
    OpenBrace,
    /// `}`
    CloseBrace,
    /// `(`
    OpenParen,
    /// `)`
    CloseParen,
    /// `[`
    OpenBracket,
    /// `]`
    CloseBracket,
    /// `;`
    Semicolon,
    /// `,`
    Comma,
    /// `<`
    Less,
    /// `>`
    Greater,
    /// `<=`
    LessEqual,
    /// `>=`
    GreaterEqual,
    /// `<=>`
    Spaceship,
    /// `==`
    Equal,
    /// `!=`
    NotEqual,
    /// `===`
    Identical,
    /// `!==`
    NotIdentical,
    /// `=`
    Assign,
    /// `+`
    Plus,
    /// `-`
    Minus,
    /// `*`
    Star,
    /// `/`
    Slash,
    /// `%`
    Percent,
    /// `**`
    Power,
    /// `.`
    Dot,
    /// `!`
    Not,
    /// `&&`
    AndAnd,
    /// `||`
    OrOr,
    /// `&`
    And,
    /// `|`
    Or,
    /// `^`
    Xor,
    /// `~`
    Tilde,
    /// `?`
    Question,
    /// `??`
    Coalesce,
    /// `?->`
    NullArrow,
    /// `?as`
    NullAs,
    /// `->`
    Arrow,
    /// `=>`
    FatArrow,
    /// `::`
    ColonColon,
    /// `:`
    Colon,
    /// `++`
    Increment,
    /// `--`
    Decrement,
    /// `+=`
    PlusAssign,
    /// `-=`
    MinusAssign,
    /// `*=`
    StarAssign,
    /// `/=`
    SlashAssign,
    /// `%=`
    PercentAssign,
    /// `.=`
    DotAssign,
    /// `&=`
    AndAssign,
    /// `|=`
    OrAssign,
    /// `^=`
    XorAssign,
    /// `**=`
    PowerAssign,
    /// `??=`
    CoalesceAssign,
    /// `...`
    Ellipsis,
    /// `<<`
    OpenAttributes,
}

/// A keyword.
#[derive(Clone, Copy, PartialEq, Eq)]
pub enum Keyword {
    /// `abstract`
    Abstract,
    /// `arraykey`
    Arraykey,
    /// `as`
    As,
    /// `bool`
    Bool,
    /// `break`
    Break,
    /// `case`
    Case,
    /// `catch`
    Catch,
    /// `class`
    Class,
    /// `const`
    Const,
    /// `continue`
    Continue,
    /// `default`
    Default,
    /// `dict`
    Dict,
    /// `do`
    Do,
    /// `echo`
    Echo,
    /// `else`
    Else,
    /// `enum`
    Enum,
    /// `extends`
    Extends,
    /// `false`
    False,
    /// `final`
    Final,
    /// `finally`
    Finally,
    /// `float`
    Float,
    /// `for`
    For,
    /// `foreach`
    Foreach,
    /// `function`
    Function,
    /// `if`
    If,
    /// `implements`
    Implements,
    /// `int`
    Int,
    /// `interface`
    Interface,
    /// `is`
    Is,
    /// `keyset`
    Keyset,
    /// `mixed`
    Mixed,
    /// `new`
    New,
    /// `newtype`
    Newtype,
    /// `nonnull`
    Nonnull,
    /// `noreturn`
    Noreturn,
    /// `nothing`
    Nothing,
    /// `null`
    Null,
    /// `num`
    Num,
    /// `parent`
    Parent,
    /// `private`
    Private,
    /// `protected`
    Protected,
    /// `public`
    Public,
    /// `return`
    Return,
    /// `self`
    Self_,
    /// `shape`
    Shape,
    /// `static`
    Static,
    /// `string`
    String,
    /// `super`
    Super,
    /// `switch`
    Switch,
    /// `this`
    This,
    /// `throw`
    Throw,
    /// `trait`
    Trait,
    /// `true`
    True,
    /// `try`
    Try,
    /// `type`
    Type_,
    /// `use`
    Use,
    /// `vec`
    Vec,
    /// `void`
    Void,
    /// `while`
    While,
}

/// What a token is.
#[derive(Clone, Copy, PartialEq, Eq)]
pub enum TokenKind {
    /// A word that is no keyword.
    Name,
    /// A variable other than `$this`.
    Variable,
    /// `$this`.
    This,
    /// An int.
    Int,
    /// A float.
    Float,
    /// A string that is no key string.
    Text,
    /// A key string.
    KeyText,
    /// A mark.
    Mark(Mark),
    /// A keyword.
    Keyword(Keyword),
}

impl TokenKind {
    /// Whether it is this mark.
    pub fn is_mark(self, mark: Mark) -> bool
        ensures { result ≡ (sort_of_kind self == sort_of_kind (kinds.Mark mark)) }
    {
        match self {
            TokenKind::Mark(found) => found == mark,
            _ => false,
        }
    }

    /// Whether it is this keyword.
    pub fn is_keyword(self, keyword: Keyword) -> bool
        ensures { result ≡ (sort_of_kind self == sort_of_kind (kinds.Keyword keyword)) }
    {
        match self {
            TokenKind::Keyword(found) => found == keyword,
            _ => false,
        }
    }
}

// The kind of this sort, and nothing where the sort is no kind's number.
pub(crate) fn kind_of(sort: u16) -> Option<TokenKind>
    ensures { MatchOption result (121 ≤ sort) (λ kind. sort ≡ sort_of_kind kind) }
{
    if sort >= 62 {
        return match keyword_of(sort - 62) {
            Some(keyword) => Some(TokenKind::Keyword(keyword)),
            None => None,
        };
    }
    if sort >= 7 {
        return match mark_of(sort - 7) {
            Some(mark) => Some(TokenKind::Mark(mark)),
            None => None,
        };
    }
    match sort {
        0 => Some(TokenKind::Name),
        1 => Some(TokenKind::Variable),
        2 => Some(TokenKind::This),
        3 => Some(TokenKind::Int),
        4 => Some(TokenKind::Float),
        5 => Some(TokenKind::Text),
        _ => Some(TokenKind::KeyText),
    }
}

// The mark of this number.
fn mark_of(number: u16) -> Option<Mark>
    ensures { MatchOption result (55 ≤ number) (λ mark. number ≡ number_of_mark mark) }
{
    match number {
        0 => Some(Mark::OpenBrace),
        1 => Some(Mark::CloseBrace),
        2 => Some(Mark::OpenParen),
        3 => Some(Mark::CloseParen),
        4 => Some(Mark::OpenBracket),
        5 => Some(Mark::CloseBracket),
        6 => Some(Mark::Semicolon),
        7 => Some(Mark::Comma),
        8 => Some(Mark::Less),
        9 => Some(Mark::Greater),
        10 => Some(Mark::LessEqual),
        11 => Some(Mark::GreaterEqual),
        12 => Some(Mark::Spaceship),
        13 => Some(Mark::Equal),
        14 => Some(Mark::NotEqual),
        15 => Some(Mark::Identical),
        16 => Some(Mark::NotIdentical),
        17 => Some(Mark::Assign),
        18 => Some(Mark::Plus),
        19 => Some(Mark::Minus),
        20 => Some(Mark::Star),
        21 => Some(Mark::Slash),
        22 => Some(Mark::Percent),
        23 => Some(Mark::Power),
        24 => Some(Mark::Dot),
        25 => Some(Mark::Not),
        26 => Some(Mark::AndAnd),
        27 => Some(Mark::OrOr),
        28 => Some(Mark::And),
        29 => Some(Mark::Or),
        30 => Some(Mark::Xor),
        31 => Some(Mark::Tilde),
        32 => Some(Mark::Question),
        33 => Some(Mark::Coalesce),
        34 => Some(Mark::NullArrow),
        35 => Some(Mark::NullAs),
        36 => Some(Mark::Arrow),
        37 => Some(Mark::FatArrow),
        38 => Some(Mark::ColonColon),
        39 => Some(Mark::Colon),
        40 => Some(Mark::Increment),
        41 => Some(Mark::Decrement),
        42 => Some(Mark::PlusAssign),
        43 => Some(Mark::MinusAssign),
        44 => Some(Mark::StarAssign),
        45 => Some(Mark::SlashAssign),
        46 => Some(Mark::PercentAssign),
        47 => Some(Mark::DotAssign),
        48 => Some(Mark::AndAssign),
        49 => Some(Mark::OrAssign),
        50 => Some(Mark::XorAssign),
        51 => Some(Mark::PowerAssign),
        52 => Some(Mark::CoalesceAssign),
        53 => Some(Mark::Ellipsis),
        54 => Some(Mark::OpenAttributes),
        _ => None,
    }
}

// The keyword of this number.
fn keyword_of(number: u16) -> Option<Keyword>
    ensures { MatchOption result (59 ≤ number) (λ keyword. number ≡ number_of_keyword keyword) }
{
    match number {
        0 => Some(Keyword::Abstract),
        1 => Some(Keyword::Arraykey),
        2 => Some(Keyword::As),
        3 => Some(Keyword::Bool),
        4 => Some(Keyword::Break),
        5 => Some(Keyword::Case),
        6 => Some(Keyword::Catch),
        7 => Some(Keyword::Class),
        8 => Some(Keyword::Const),
        9 => Some(Keyword::Continue),
        10 => Some(Keyword::Default),
        11 => Some(Keyword::Dict),
        12 => Some(Keyword::Do),
        13 => Some(Keyword::Echo),
        14 => Some(Keyword::Else),
        15 => Some(Keyword::Enum),
        16 => Some(Keyword::Extends),
        17 => Some(Keyword::False),
        18 => Some(Keyword::Final),
        19 => Some(Keyword::Finally),
        20 => Some(Keyword::Float),
        21 => Some(Keyword::For),
        22 => Some(Keyword::Foreach),
        23 => Some(Keyword::Function),
        24 => Some(Keyword::If),
        25 => Some(Keyword::Implements),
        26 => Some(Keyword::Int),
        27 => Some(Keyword::Interface),
        28 => Some(Keyword::Is),
        29 => Some(Keyword::Keyset),
        30 => Some(Keyword::Mixed),
        31 => Some(Keyword::New),
        32 => Some(Keyword::Newtype),
        33 => Some(Keyword::Nonnull),
        34 => Some(Keyword::Noreturn),
        35 => Some(Keyword::Nothing),
        36 => Some(Keyword::Null),
        37 => Some(Keyword::Num),
        38 => Some(Keyword::Parent),
        39 => Some(Keyword::Private),
        40 => Some(Keyword::Protected),
        41 => Some(Keyword::Public),
        42 => Some(Keyword::Return),
        43 => Some(Keyword::Self_),
        44 => Some(Keyword::Shape),
        45 => Some(Keyword::Static),
        46 => Some(Keyword::String),
        47 => Some(Keyword::Super),
        48 => Some(Keyword::Switch),
        49 => Some(Keyword::This),
        50 => Some(Keyword::Throw),
        51 => Some(Keyword::Trait),
        52 => Some(Keyword::True),
        53 => Some(Keyword::Try),
        54 => Some(Keyword::Type_),
        55 => Some(Keyword::Use),
        56 => Some(Keyword::Vec),
        57 => Some(Keyword::Void),
        58 => Some(Keyword::While),
        _ => None,
    }
}
