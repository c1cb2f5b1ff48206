//! Worked sources, each with its tree or its error.

ghost use Rattle.handlebars_examples.specs.SourceExamples.{EmptySourceExample, ValueSourceExample, EscapedSourceExample, MemberExample, UnclosedSourceExample, PositionExample, HtmlExample, AmpersandExample, CallSourceExample, NestedExample, UpSourceExample, ChainSourceExample, LinesExample, TildeExample, InverseExample, RawSourceExample, ElseExample, CloseExample, OpenExample, DeepExample, OtherNameExample, NumberExample, DecoratorExample, DecoratorBlockExample, DecoratorInverseExample, DecoratorNameExample};

/// States what some sources compile to.
pub fn worked_sources()
    ensures empty { EmptySourceExample }
    ensures value { ValueSourceExample }
    ensures escaped { EscapedSourceExample }
    ensures member { MemberExample }
    ensures unclosed { UnclosedSourceExample }
    ensures position { PositionExample }
    ensures html_tag { HtmlExample }
    ensures ampersand_tag { AmpersandExample }
    ensures call_tag { CallSourceExample }
    ensures nested_tag { NestedExample }
    ensures up_tag { UpSourceExample }
    ensures chain_block { ChainSourceExample }
    ensures lines_example { LinesExample }
    ensures tilde_example { TildeExample }
    ensures inverse_example { InverseExample }
    ensures raw_block { RawSourceExample }
    ensures else_tag { ElseExample }
    ensures close_tag { CloseExample }
    ensures open_block { OpenExample }
    ensures deep_call { DeepExample }
    ensures other_name { OtherNameExample }
    ensures number_example { NumberExample }
    ensures decorator_tag { DecoratorExample }
    ensures decorator_block { DecoratorBlockExample }
    ensures decorator_inverse { DecoratorInverseExample }
    ensures decorator_name { DecoratorNameExample }
{}
