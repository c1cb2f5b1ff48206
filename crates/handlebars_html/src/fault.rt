//! What breaks the rule of data in a template or in a registry, and where.

ghost use Rattle.std.specs.Prelude.{◌≡◌, OnOk, map, option_map, string_bytes};
ghost use Rattle.std.specs.Str.{bytes_eq};
ghost use Rattle.handlebars_html.specs.Faults as definitions;
ghost use Rattle.handlebars_html.specs.RowsView.{fault_of, why_of};

use crate::html::Html;
use crate::lists::push;
use crate::same::is_same;
use std::alloc::AllocError;

/// Why data may stand where it must not.
#[derive(Debug)]
pub enum HtmlFaultReason {
    /// A value stands in this state, in which data may not stand.
    UnsafeValue(Html),
    /// A value stands after a text of which nothing more is said.
    UnreadValue,
    /// An html expression writes its value unescaped.
    UnescapedValue,
    /// A text stands in this state, in which a blank before it would change what it means.
    ChangedText(Html),
    /// A text changes what an attribute before it means, in which data may stand.
    LateAttribute,
    /// A text would make a scheme of an address that was written as a value.
    ChangedAddress,
    /// Iterations begin in the first state, and one of them ends in the second.
    ChangedByIteration(Html, Html),
    /// A block that may be captured ends in this state.
    ChangedByBlock(Html),
    /// Captured text is included in this state.
    CapturedTextIn(Html),
    /// An inclusion has a name that is made when it is rendered.
    MadeInclusion,
    /// A block has a name that is made when it is rendered.
    MadeBlock,
    /// The indentation of an inclusion has other bytes than blanks.
    OtherIndent,
    /// An expression has bodies, which it has in no source.
    ExpressionBodies,
    /// Values are not escaped for html.
    OtherEscape,
    /// The user-defined helper of this name has steps.
    HelperWithSteps(String),
    /// Another built-in helper than that of this name is registered under it, or none.
    MisplacedHelper(String),
    /// A user-defined helper is registered under the name of a hook.
    UserHook(String),
    /// Another decorator than that of this name is registered under it, or none.
    UserDecorator(String),
}

// Not derived, so that each drop of one is a single call.
impl Drop for HtmlFaultReason {
    fn drop(self) {
        match self {
            HtmlFaultReason::UnsafeValue(_) => {}
            HtmlFaultReason::UnreadValue => {}
            HtmlFaultReason::UnescapedValue => {}
            HtmlFaultReason::ChangedText(_) => {}
            HtmlFaultReason::LateAttribute => {}
            HtmlFaultReason::ChangedAddress => {}
            HtmlFaultReason::ChangedByIteration(_, _) => {}
            HtmlFaultReason::ChangedByBlock(_) => {}
            HtmlFaultReason::CapturedTextIn(_) => {}
            HtmlFaultReason::MadeInclusion => {}
            HtmlFaultReason::MadeBlock => {}
            HtmlFaultReason::OtherIndent => {}
            HtmlFaultReason::ExpressionBodies => {}
            HtmlFaultReason::OtherEscape => {}
            HtmlFaultReason::HelperWithSteps(_) => {}
            HtmlFaultReason::MisplacedHelper(_) => {}
            HtmlFaultReason::UserHook(_) => {}
            HtmlFaultReason::UserDecorator(_) => {}
        }
    }
}

/// A fault: the name of the template, if it has one, the line and the column, if they are known, and the reason.
#[derive(Debug)]
pub struct HtmlFault {
    pub template_name: Option<String>,
    pub line_no: Option<usize>,
    pub column_no: Option<usize>,
    pub reason: HtmlFaultReason,
}

// Not derived, so that each drop of one is a single call.
impl Drop for HtmlFault {
    fn drop(self) {
        let HtmlFault {
            template_name: _,
            line_no: _,
            column_no: _,
            reason: _,
        } = self;
    }
}

fn is_same_text(x: &String, y: &String) -> bool
    ensures { result ≡ bytes_eq (string_bytes x.now) (string_bytes y.now) }
{
    x.as_str() == y.as_str()
}

fn is_same_why(x: &HtmlFaultReason, y: &HtmlFaultReason) -> bool
    ensures { result ≡ definitions.is_same_why (why_of x.now) (why_of y.now) }
{
    match (x, y) {
        (HtmlFaultReason::UnsafeValue(h), HtmlFaultReason::UnsafeValue(g)) => is_same(h, g),
        (HtmlFaultReason::UnreadValue, HtmlFaultReason::UnreadValue) => true,
        (HtmlFaultReason::UnescapedValue, HtmlFaultReason::UnescapedValue) => true,
        (HtmlFaultReason::ChangedText(h), HtmlFaultReason::ChangedText(g)) => is_same(h, g),
        (HtmlFaultReason::ChangedByIteration(h, k), HtmlFaultReason::ChangedByIteration(g, l)) =>
            is_same(h, g) && is_same(k, l),
        (HtmlFaultReason::ChangedByBlock(h), HtmlFaultReason::ChangedByBlock(g)) => is_same(h, g),
        (HtmlFaultReason::CapturedTextIn(h), HtmlFaultReason::CapturedTextIn(g)) => is_same(h, g),
        (HtmlFaultReason::LateAttribute, HtmlFaultReason::LateAttribute) => true,
        (HtmlFaultReason::ChangedAddress, HtmlFaultReason::ChangedAddress) => true,
        (HtmlFaultReason::MadeInclusion, HtmlFaultReason::MadeInclusion) => true,
        (HtmlFaultReason::MadeBlock, HtmlFaultReason::MadeBlock) => true,
        (HtmlFaultReason::OtherIndent, HtmlFaultReason::OtherIndent) => true,
        (HtmlFaultReason::ExpressionBodies, HtmlFaultReason::ExpressionBodies) => true,
        (HtmlFaultReason::OtherEscape, HtmlFaultReason::OtherEscape) => true,
        (HtmlFaultReason::HelperWithSteps(n), HtmlFaultReason::HelperWithSteps(m)) => {
            is_same_text(n, m)
        }
        (HtmlFaultReason::MisplacedHelper(n), HtmlFaultReason::MisplacedHelper(m)) => {
            is_same_text(n, m)
        }
        (HtmlFaultReason::UserHook(n), HtmlFaultReason::UserHook(m)) => is_same_text(n, m),
        (HtmlFaultReason::UserDecorator(n), HtmlFaultReason::UserDecorator(m)) => {
            is_same_text(n, m)
        }
        (_, _) => false,
    }
}

fn is_same_name(x: &Option<String>, y: &Option<String>) -> bool
    ensures { result ≡ definitions.is_same_name (option_map string_bytes x.now) (option_map string_bytes y.now) }
{
    match (x, y) {
        (None, None) => true,
        (Some(n), Some(m)) => is_same_text(n, m),
        (_, _) => false,
    }
}

fn is_same_number(x: Option<usize>, y: Option<usize>) -> bool
    ensures { result ≡ definitions.is_same_number x y }
{
    match (x, y) {
        (None, None) => true,
        (Some(n), Some(m)) => n == m,
        (_, _) => false,
    }
}

fn is_same_fault(x: &HtmlFault, y: &HtmlFault) -> bool
    ensures { result ≡ definitions.is_same_fault (fault_of x.now) (fault_of y.now) }
{
    is_same_name(&x.template_name, &y.template_name)
        && (is_same_number(x.line_no, y.line_no)
            && (is_same_number(x.column_no, y.column_no) && is_same_why(&x.reason, &y.reason)))
}

fn has_fault(faults: &[HtmlFault], fault: &HtmlFault) -> bool
    ensures { result ≡ definitions.has_fault (map fault_of faults.now) (fault_of fault.now) }
{
    'faults: for other in faults {
        if is_same_fault(other, fault) {
            return true;
        }
    }
    false
}

/// Adds a fault at the end, unless it is among them.
///
/// # Errors
///
/// Fails if memory runs out.
pub fn add_fault(faults: &mut Vec<HtmlFault>, fault: HtmlFault) -> Result<(), AllocError>
    ensures { OnOk result (map fault_of faults.new.items ≡ definitions.with_fault (map fault_of faults.old.items) (fault_of fault)) }
{
    if has_fault(faults, &fault) {
        return Ok(());
    }
    push(faults, fault)
}
