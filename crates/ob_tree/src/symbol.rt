//! The symbols of the vocabulary.

/// A symbol of the vocabulary: a reserved word, a mark, or one of the kinds that have many
/// texts.
#[derive(Clone, Copy, Debug, PartialEq, Eq, Drop)]
pub enum Symbol {
    Ident,
    /// An integer, decimal or hexadecimal with `H`.
    Int,
    /// A character constant, hexadecimal with `X`.
    Char,
    /// A string with its marks.
    Str,
    KwArray,
    KwBegin,
    KwBy,
    KwCase,
    KwConst,
    KwDiv,
    KwDo,
    KwElse,
    KwElsif,
    KwEnd,
    KwExit,
    KwFor,
    KwIf,
    KwImport,
    KwIn,
    KwIs,
    KwLoop,
    KwMod,
    KwModule,
    KwNil,
    KwOf,
    KwOr,
    KwPointer,
    KwProcedure,
    KwRecord,
    KwRepeat,
    KwReturn,
    KwThen,
    KwTo,
    KwType,
    KwUntil,
    KwVar,
    KwWhile,
    KwWith,
    /// `+`
    Plus,
    /// `-`
    Minus,
    /// `*`
    Star,
    /// `/`
    Slash,
    /// `~`
    Tilde,
    /// `&`
    Ampersand,
    /// `.`
    Dot,
    /// `,`
    Comma,
    /// `;`
    Semicolon,
    /// `|`
    Bar,
    /// `(`
    LeftRound,
    /// `[`
    LeftSquare,
    /// `{`
    LeftCurly,
    /// `:=`
    Becomes,
    /// `^`
    Caret,
    /// `=`
    Equal,
    /// `#`
    Hash,
    /// `<`
    Less,
    /// `>`
    Greater,
    /// `<=`
    LessEqual,
    /// `>=`
    GreaterEqual,
    /// `..`
    DotDot,
    /// `:`
    Colon,
    /// `)`
    RightRound,
    /// `]`
    RightSquare,
    /// `}`
    RightCurly,
    /// The end of the text.
    End,
}
