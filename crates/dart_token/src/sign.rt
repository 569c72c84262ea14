// The signs of the language.
ghost use Rattle.std.specs.Prelude.{◌≡◌};
ghost use Rattle.dart_token.specs.Sign.{sign_text};

/// A sign of the language: brackets, separators and operators.
///
/// `>>` and `>>=` are no signs: they are written as `>` and a following `>` or `>=`. Another sign is also a line of
/// `text`, of `sign_text` in specs/Sign.antt, and of the tables of marks in dart_pieces.
#[derive(Clone, Copy, Debug, PartialEq, Eq)]
pub enum Sign {
    /// `(`
    LeftParenthesis,
    /// `)`
    RightParenthesis,
    /// `[`
    LeftBracket,
    /// `]`
    RightBracket,
    /// `{`
    LeftBrace,
    /// `}`
    RightBrace,
    /// `;`
    Semicolon,
    /// `,`
    Comma,
    /// `.`
    Dot,
    /// `..`
    DotDot,
    /// `:`
    Colon,
    /// `?`
    Question,
    /// `@`
    AtSign,
    /// `=`
    Assign,
    /// `=>`
    Arrow,
    /// `==`
    EqualEqual,
    /// `!=`
    NotEqual,
    /// `<`
    Less,
    /// `>`
    Greater,
    /// `<=`
    LessEqual,
    /// `>=`
    GreaterEqual,
    /// `<<`
    ShiftLeft,
    /// `+`
    Plus,
    /// `-`
    Minus,
    /// `*`
    Star,
    /// `/`
    Slash,
    /// `~/`
    TildeSlash,
    /// `%`
    Percent,
    /// `&`
    Ampersand,
    /// `|`
    Bar,
    /// `^`
    Caret,
    /// `~`
    Tilde,
    /// `!`
    Bang,
    /// `&&`
    AndAnd,
    /// `||`
    OrOr,
    /// `++`
    PlusPlus,
    /// `--`
    MinusMinus,
    /// `+=`
    PlusAssign,
    /// `-=`
    MinusAssign,
    /// `*=`
    StarAssign,
    /// `/=`
    SlashAssign,
    /// `~/=`
    TildeSlashAssign,
    /// `%=`
    PercentAssign,
    /// `&=`
    AmpersandAssign,
    /// `|=`
    BarAssign,
    /// `^=`
    CaretAssign,
    /// `<<=`
    ShiftLeftAssign,
}

impl Sign {
    /// How the sign is written.
    pub fn text(self) -> &'static [u8]
        ensures { result.now ≡ sign_text self }
    {
        match self {
            Sign::LeftParenthesis => b"(",
            Sign::RightParenthesis => b")",
            Sign::LeftBracket => b"[",
            Sign::RightBracket => b"]",
            Sign::LeftBrace => b"{",
            Sign::RightBrace => b"}",
            Sign::Semicolon => b";",
            Sign::Comma => b",",
            Sign::Dot => b".",
            Sign::DotDot => b"..",
            Sign::Colon => b":",
            Sign::Question => b"?",
            Sign::AtSign => b"@",
            Sign::Assign => b"=",
            Sign::Arrow => b"=>",
            Sign::EqualEqual => b"==",
            Sign::NotEqual => b"!=",
            Sign::Less => b"<",
            Sign::Greater => b">",
            Sign::LessEqual => b"<=",
            Sign::GreaterEqual => b">=",
            Sign::ShiftLeft => b"<<",
            Sign::Plus => b"+",
            Sign::Minus => b"-",
            Sign::Star => b"*",
            Sign::Slash => b"/",
            Sign::TildeSlash => b"~/",
            Sign::Percent => b"%",
            Sign::Ampersand => b"&",
            Sign::Bar => b"|",
            Sign::Caret => b"^",
            Sign::Tilde => b"~",
            Sign::Bang => b"!",
            Sign::AndAnd => b"&&",
            Sign::OrOr => b"||",
            Sign::PlusPlus => b"++",
            Sign::MinusMinus => b"--",
            Sign::PlusAssign => b"+=",
            Sign::MinusAssign => b"-=",
            Sign::StarAssign => b"*=",
            Sign::SlashAssign => b"/=",
            Sign::TildeSlashAssign => b"~/=",
            Sign::PercentAssign => b"%=",
            Sign::AmpersandAssign => b"&=",
            Sign::BarAssign => b"|=",
            Sign::CaretAssign => b"^=",
            Sign::ShiftLeftAssign => b"<<=",
        }
    }
}
