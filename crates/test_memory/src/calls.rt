//! The calls that allocate, other than the ten that render and the rendering of a tree.

use crate::contexts::RenderingCall;
use crate::outcome::{Outcome, Stop};
use crate::registering::MarkupCall;
use crate::values::ListCall;
use crate::{contexts, errors, files, html, registering, scopes, trees, values};
use std::alloc::Global;

/// A call, by what it belongs to.
pub enum Call {
    OfError(errors::Call),
    OfValue(values::Call),
    OfTree(trees::Call),
    OfScope(scopes::Call),
    OfContext(contexts::Call),
    OfRegistry(registering::Call),
    OfFiles(files::Call),
    OfHtml(html::Call),
}

/// Returns the call of that name, if there is one.
pub fn call_named(name: &str) -> Option<&'static Call> {
    for (named, call) in &CALLS {
        if *named == name {
            return Some(call);
        }
    }
    None
}

/// Returns the outcome of a call.
pub fn outcome(alloc: Global, call: &Call) -> Result<Outcome, Stop> {
    match call {
        Call::OfError(call) => errors::outcome(alloc, call),
        Call::OfValue(call) => values::outcome(alloc, call),
        Call::OfTree(call) => trees::outcome(alloc, call),
        Call::OfScope(call) => scopes::outcome(alloc, call),
        Call::OfContext(call) => contexts::outcome(alloc, call),
        Call::OfRegistry(call) => registering::outcome(alloc, call),
        Call::OfFiles(call) => files::outcome(alloc, call),
        Call::OfHtml(call) => html::outcome(alloc, call),
    }
}

/// All calls, by name.
pub static CALLS: [(&str, Call); 74] = [
    ("RenderError::new", Call::OfError(errors::Call::New)),
    (
        "RenderError::strict_error",
        Call::OfError(errors::Call::StrictError),
    ),
    (
        "RenderError::from_error",
        Call::OfError(errors::Call::FromError),
    ),
    (
        "RenderError::in_template",
        Call::OfError(errors::Call::InTemplate),
    ),
    ("RenderError::to_string", Call::OfError(errors::Call::Print)),
    ("TemplateError::at", Call::OfError(errors::Call::TemplateAt)),
    (
        "TemplateError::to_string",
        Call::OfError(errors::Call::PrintTemplate),
    ),
    ("Path::parse", Call::OfValue(values::Call::ParsePath)),
    (
        "Json::render",
        Call::OfValue(values::Call::OfList(ListCall::Render)),
    ),
    (
        "ScopedJson::render",
        Call::OfValue(values::Call::OfList(ListCall::RenderScoped)),
    ),
    (
        "ScopedJson::into_derived",
        Call::OfValue(values::Call::OfList(ListCall::Derive)),
    ),
    (
        "PathAndJson::render",
        Call::OfValue(values::Call::OfList(ListCall::RenderWithPath)),
    ),
    ("to_json", Call::OfValue(values::Call::ToJson)),
    ("html_escape", Call::OfValue(values::Call::HtmlEscape)),
    ("escape_html", Call::OfValue(values::Call::EscapeHtml)),
    ("no_escape", Call::OfValue(values::Call::NoEscape)),
    ("with_indent", Call::OfValue(values::Call::WithIndent)),
    ("write_indented", Call::OfValue(values::Call::WriteIndented)),
    (
        "StringOutput::write",
        Call::OfValue(values::Call::WriteToOutput),
    ),
    (
        "StringWriter::write",
        Call::OfValue(values::Call::WriteToWriter),
    ),
    (
        "log_record",
        Call::OfValue(values::Call::OfList(ListCall::LogRecord)),
    ),
    ("Template::compile", Call::OfTree(trees::Call::Compile)),
    (
        "Template::compile_with_name",
        Call::OfTree(trees::Call::CompileWithName),
    ),
    ("Template::compile2", Call::OfTree(trees::Call::Compile2)),
    ("Template::clone", Call::OfTree(trees::Call::Clone)),
    (
        "Parameter::parse",
        Call::OfTree(trees::Call::ParseParameter),
    ),
    (
        "Subexpression::new",
        Call::OfTree(trees::Call::NewSubexpression),
    ),
    ("LocalVars::put", Call::OfScope(scopes::Call::PutVariable)),
    (
        "LocalVars::clone",
        Call::OfScope(scopes::Call::CloneVariables),
    ),
    (
        "BlockParams::add_path",
        Call::OfScope(scopes::Call::AddPath),
    ),
    (
        "BlockParams::add_value",
        Call::OfScope(scopes::Call::AddValue),
    ),
    (
        "BlockContext::set_local_var",
        Call::OfScope(scopes::Call::SetLocalVar),
    ),
    (
        "BlockContext::set_local_partial",
        Call::OfScope(scopes::Call::SetLocalPartial),
    ),
    (
        "BlockContext::set_block_param",
        Call::OfScope(scopes::Call::SetBlockParam),
    ),
    (
        "BlockContext::with_variables_of",
        Call::OfScope(scopes::Call::CopyVariables),
    ),
    ("Context::wraps", Call::OfScope(scopes::Call::Wrap)),
    ("Context::clone", Call::OfScope(scopes::Call::CloneData)),
    ("Context::navigate", Call::OfScope(scopes::Call::Navigate)),
    ("FullPath::copied", Call::OfScope(scopes::Call::CopyNames)),
    ("RenderContext::new", Call::OfContext(contexts::Call::New)),
    (
        "RenderContext::push_block",
        Call::OfContext(contexts::Call::PushBlock),
    ),
    (
        "RenderContext::register_local_helper",
        Call::OfContext(contexts::Call::BindHelper),
    ),
    (
        "RenderContext::evaluate",
        Call::OfContext(contexts::Call::Evaluate),
    ),
    ("indent_aware_write", Call::OfContext(contexts::Call::Write)),
    (
        "Parameter::expand",
        Call::OfContext(contexts::Call::Rendering(RenderingCall::Expand)),
    ),
    (
        "Parameter::expand_as_name",
        Call::OfContext(contexts::Call::Rendering(RenderingCall::ExpandAsName)),
    ),
    (
        "Template::eval",
        Call::OfContext(contexts::Call::Rendering(RenderingCall::EvalTree)),
    ),
    (
        "TemplateElement::eval",
        Call::OfContext(contexts::Call::Rendering(RenderingCall::EvalElement)),
    ),
    (
        "TemplateElement::render",
        Call::OfContext(contexts::Call::Rendering(RenderingCall::RenderElement)),
    ),
    (
        "TemplateElement::renders",
        Call::OfContext(contexts::Call::Rendering(RenderingCall::ElementText)),
    ),
    (
        "expand_partial",
        Call::OfContext(contexts::Call::Rendering(RenderingCall::ExpandPartial)),
    ),
    ("Registry::new", Call::OfRegistry(registering::Call::New)),
    (
        "register_template",
        Call::OfRegistry(registering::Call::RegisterTree),
    ),
    (
        "register_template_string",
        Call::OfRegistry(registering::Call::RegisterSource),
    ),
    (
        "register_template_string(refused)",
        Call::OfRegistry(registering::Call::RegisterRejected),
    ),
    (
        "register_partial",
        Call::OfRegistry(registering::Call::RegisterPartial),
    ),
    (
        "register_helper",
        Call::OfRegistry(registering::Call::RegisterHelper),
    ),
    (
        "register_helper(own)",
        Call::OfRegistry(registering::Call::RegisterUserHelper),
    ),
    (
        "register_decorator",
        Call::OfRegistry(registering::Call::RegisterDecorator),
    ),
    (
        "register_decorator(own)",
        Call::OfRegistry(registering::Call::RegisterUserDecorator),
    ),
    (
        "register_template_file",
        Call::OfFiles(files::Call::RegisterFile { dev: false }),
    ),
    (
        "register_template_file(dev)",
        Call::OfFiles(files::Call::RegisterFile { dev: true }),
    ),
    (
        "register_templates_directory",
        Call::OfFiles(files::Call::RegisterFolder { dev: false }),
    ),
    (
        "register_templates_directory(dev)",
        Call::OfFiles(files::Call::RegisterFolder { dev: true }),
    ),
    (
        "register_templates_directory(refused)",
        Call::OfFiles(files::Call::RegisterRejectedFolder),
    ),
    ("render(dev)", Call::OfFiles(files::Call::Render)),
    (
        "markup_is_fixed",
        Call::OfRegistry(registering::Call::OfMarkup(MarkupCall::Judge)),
    ),
    (
        "markup_faults",
        Call::OfRegistry(registering::Call::OfMarkup(MarkupCall::Report)),
    ),
    (
        "template_markup_is_fixed",
        Call::OfRegistry(registering::Call::JudgeSource),
    ),
    (
        "template_markup_faults",
        Call::OfRegistry(registering::Call::OfMarkup(MarkupCall::ReportOfSource)),
    ),
    ("html_is_safe", Call::OfHtml(html::Call::Judge)),
    ("html_faults", Call::OfHtml(html::Call::Report)),
    (
        "template_html_is_safe",
        Call::OfHtml(html::Call::JudgeSource),
    ),
    (
        "template_html_faults",
        Call::OfHtml(html::Call::ReportOfSource),
    ),
];
