//! What holds of every text and tag, for callers to cite.

ghost use Rattle.handlebars_lexer.specs.Comment.{OneComment};
ghost use Rattle.handlebars_lexer.specs.Tag.{OneTag};
ghost use Rattle.handlebars_lexer.specs.Text.{OneText, ClearText};
ghost use Rattle.handlebars_lexer.specs.Trim.{LastBlanks};

/// At most one text is at the start of a source.
pub fn one_text()
    ensures { OneText }
{}

/// In a text without backslashes no braces begin.
pub fn clear_text()
    ensures { ClearText }
{}

/// At most one comment follows `{{!`.
pub fn one_comment()
    ensures { OneComment }
{}

/// At most one tag is at the start of a source.
pub fn one_tag()
    ensures { OneTag }
{}

/// The blanks that end a text are all the blanks there.
pub fn last_blanks()
    ensures { LastBlanks }
{}
