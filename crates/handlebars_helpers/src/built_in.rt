//! The built-in helpers, and their names.

ghost use Rattle.std.specs.Prelude.{◌≡◌, map};
ghost use Rattle.handlebars_helpers.specs.Choice.{built_ins};
ghost use Rattle.handlebars_helpers.specs.View.{built_in_kind};

/// A helper that every registry has from the start.
#[derive(Clone, Copy, Debug, PartialEq, Eq)]
pub enum BuiltIn {
    /// Renders its body if its parameter counts as true, otherwise its inverse.
    If,
    /// Renders its inverse if its parameter counts as true, otherwise its body.
    Unless,
    /// Renders its body for each member of its parameter, in a scope frame.
    Each,
    /// Renders its body in a scope frame whose base is its parameter.
    With,
    /// Evaluates to the member of its first parameter under its second one.
    Lookup,
    /// Renders its body.
    Raw,
    /// Writes a line to the logger, and nothing to the output.
    Log,
    /// Tests whether two values are equal.
    Eq,
    /// Tests whether two values differ.
    Ne,
    /// Tests whether the first value is greater.
    Gt,
    /// Tests whether the first value is greater or equal.
    Gte,
    /// Tests whether the first value is less.
    Lt,
    /// Tests whether the first value is less or equal.
    Lte,
    /// Tests whether all parameters count as true.
    And,
    /// Tests whether some parameter counts as true.
    Or,
    /// Tests whether its parameter does not count as true.
    Not,
    /// Evaluates to the number of bytes of a string, or of members of an array or an object.
    Len,
}

/// Returns the built-in helpers and their names.
pub fn table() -> [(&'static str, BuiltIn); 17]
    ensures { map (λ row. (row.0.now, built_in_kind row.1)) result ≡ built_ins }
{
    [
        ("if", BuiltIn::If),
        ("unless", BuiltIn::Unless),
        ("each", BuiltIn::Each),
        ("with", BuiltIn::With),
        ("lookup", BuiltIn::Lookup),
        ("raw", BuiltIn::Raw),
        ("log", BuiltIn::Log),
        ("eq", BuiltIn::Eq),
        ("ne", BuiltIn::Ne),
        ("gt", BuiltIn::Gt),
        ("gte", BuiltIn::Gte),
        ("lt", BuiltIn::Lt),
        ("lte", BuiltIn::Lte),
        ("and", BuiltIn::And),
        ("or", BuiltIn::Or),
        ("not", BuiltIn::Not),
        ("len", BuiltIn::Len),
    ]
}
