//! The names that `handlebars` re-exports for its callers. Each must exist.

pub use handlebars::{
    BlockContext, BlockParam, BlockParamHolder, BlockParams, BuiltIn, Context, DecoratorTemplate,
    EntryKind, Expand, ExpressionSpec, Handlebars, Helper, HelperEntry, HelperTemplate, JsonRender,
    JsonTruthy, JsonValue, LocalHelper, LocalVars, NoFiles, Output, Parameter, Path, PathAndJson,
    PathRule, PathSeg, Registry, RenderContext, RenderError, RenderErrorReason, Renderable,
    ScopedJson, StringOutput, Subexpression, Template, TemplateElement, TemplateError,
    TemplateErrorReason, TemplateMapping, TemplateOptions, TemplateReader, as_string, compare,
    equal, escape_html, html_escape, indent_aware_write, laws, log_record, no_escape, template,
    to_json,
};
