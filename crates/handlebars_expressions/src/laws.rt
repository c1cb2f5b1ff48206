//! Laws that callers may cite. Each is a function that does nothing: its contract is the law.

ghost use Rattle.handlebars_expressions.specs.Binding.{OneBinding};
ghost use Rattle.handlebars_expressions.specs.Laws.{OneLiteral, ValueOfLiteral, ValueOfOther};
ghost use Rattle.handlebars_expressions.specs.ExpressionLaws.{OneExpression, OneParameter};

/// A text has at most one literal at its start.
pub fn one_literal()
    ensures { OneLiteral }
{}

/// The value of a literal's text is the value of the literal by its shape, and any other text has none.
pub fn value_of_literal()
    ensures literal { ValueOfLiteral }
    ensures other { ValueOfOther }
{}

/// A text has at most one expression at its start.
pub fn one_expression()
    ensures { OneExpression }
{}

/// A text binds names in at most one way at its start.
pub fn one_binding()
    ensures { OneBinding }
{}

/// A text means at most one parameter.
pub fn one_parameter()
    ensures { OneParameter }
{}
