//! What the check of names finds.

use crate::scope::Scope;

/// Why a name isn't known.
#[derive(Debug, Drop)]
pub enum NameFaultReason {
    /// A call has no helper of the first name, and there is no hook, and it is no section. A helper has a name that is
    /// spelled nearly so, if one has.
    MissingHelper(String, Option<String>),
    /// The built-in helper of this name needs more parameters, this many.
    MissingParams(String, usize),
    /// A name is made when the template is rendered.
    MadeName,
    /// There is no decorator of this name, or a user-defined one, which may change what names stand for.
    OtherDecorator(String),
    /// The name of an inline partial isn't written as a text.
    UnnamedInline,
    /// The inline partial of this name has no body.
    EmptyInline(String),
    /// The partial of the first name isn't registered, may not be set where it is included, and its tag has no block. A
    /// template is registered under a name that is spelled nearly so, if one is.
    MissingPartial(String, Option<String>),
    /// The template of this name includes itself.
    IncludesItself(String),
    /// `@partial-block` stands where no block may have been captured, and its tag has none.
    MissingBlock,
    /// A body has this name, as only a hand-built template has.
    NamedBody(String),
}

/// A fault: the name of the template, if it has one, the line and the column, from 1, if they are known, and the reason.
#[derive(Debug)]
pub struct NameFault {
    pub template_name: Option<String>,
    pub line_no: Option<usize>,
    pub column_no: Option<usize>,
    pub reason: NameFaultReason,
}

// Not derived, so that each drop of one is a single call.
impl Drop for NameFault {
    fn drop(self) {
        let NameFault {
            template_name: _,
            line_no: _,
            column_no: _,
            reason: _,
        } = self;
    }
}

/// A fault; or a name, with what is known where it is included.
#[derive(Debug, Drop)]
pub enum Finding<'t> {
    Fault(NameFault),
    Includes(String, Scope<'t>),
}
