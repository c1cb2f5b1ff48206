//! The data of a template, and lookup in it.

ghost use Rattle.std.specs.Prelude.{◌≡◌, ◌⊎◌, [], false, IfErr, IfOk, Err, None, Ok, Some, String, string_bytes};
ghost use Rattle.std.specs.Global.{Global};
ghost use Rattle.serde.specs.Event.{Log};
ghost use Rattle.serde_json.specs.Errors.{IsMemory};
ghost use Rattle.serde_json.specs.Read.{read};
ghost use Rattle.serde_json.specs.Sent.{IsTextOf};
ghost use Rattle.serde_json.specs.View.{view};
ghost use Rattle.serde_json.specs.Written.{has_float};
ghost use Rattle.handlebars_base.specs.Reasons.{nowhere, out_of_memory, serde_error};
ghost use Rattle.handlebars_base.specs.RenderRefusals.{reason_in, location_of};

mod copied_path;
pub mod looked_up;
pub mod members;
mod prefixes;
mod range;
pub mod reached;
mod resolution;
mod walk;

use crate::block::BlockContext;
use crate::context::range::has_float;
use crate::context::walk::navigate;
use handlebars_base::error::{RenderError, RenderErrorReason};
use handlebars_base::json::path::PathSeg;
use handlebars_base::json::value::{Json, ScopedJson};
use serde::Serialize;
use std::alloc::{AllocError, Global};
use std::collections::{BTreeMap, VecDeque};

/// The members of an object, by name.
pub type Object = BTreeMap<String, Json>;

/// Data whose numbers are all integers from -2^63 to 2^64 - 1.
#[derive(Drop)]
pub struct Context {
    value: Json,
    pub ghost in_range: { has_float (view value) ≡ false },
}

impl Context {
    ghost use Rattle.std.specs.Prelude.{◌≡◌, ◌≢◌, false, IfOk, IfErr, OnOk, OnErr};
    ghost use Rattle.serde_json.specs.Data.{null};
    ghost use Rattle.serde_json.specs.View.{view};
    ghost use Rattle.serde_json.specs.Written.{has_float};
    ghost use Rattle.handlebars_base.specs.Answers.{Answers, gives, fails_for};
    ghost use Rattle.handlebars_base.specs.PathView.{segments_of};
    ghost use Rattle.handlebars_base.specs.Scoped.{found_of, is_constant};
    ghost use Rattle.handlebars_scope.specs.Resolve.{navigate};
    ghost use Rattle.handlebars_scope.specs.ScopeView.{frames_of};
    ghost use Rattle.handlebars_base.specs.Reasons.{nowhere, out_of_memory};
    ghost use Rattle.handlebars_base.specs.RenderRefusals.{reason_in, location_of};
    ghost use Rattle.handlebars_scope.specs.Contexts.{data_of, TestsRange};
    ghost use Rattle.handlebars_scope.specs.Wraps.{IsConversion};

    /// Creates the data of a template that is given none, which is null.
    pub fn null() -> Context
        ensures { data_of result ≡ null }
    {
        Context { value: Json::Null }
    }

    /// Creates the data that is read from the JSON text that serde_json writes for `source`.
    ///
    /// # Errors
    ///
    /// Fails with `SerdeError` if serde_json doesn't write `source`, of which nothing more is specified, or doesn't read the
    /// text, for example because it nests deeper than 127 levels. Fails with `InvalidNumber` if a number is outside the
    /// range, and with `OutOfMemory` if memory runs out.
    pub fn wraps<T: Serialize>(alloc: Global, source: &T) -> Result<Context, RenderError>
        ensures ok { IfOk result (λ c. IsConversion T.writes source.now (gives (data_of c))) }
        ensures err { IfErr result (λ e. reason_in e ≢ out_of_memory
            → IsConversion T.writes source.now (fails_for (reason_in e))) }
        ensures plain { IfErr result (λ e. location_of e ≡ nowhere) }
    {
        match read_back(alloc, source, written) {
            Ok(value) => Context::try_from(value),
            Err(cause) => Err(failed(cause)),
        }
    }

    /// Returns the data. A caller may rely on its numbers being in the range.
    pub fn data(&self) -> &Json
        ensures value { view result.now ≡ data_of self.now }
        ensures in_range { has_float (view result.now) ≡ false }
    {
        &self.value
    }

    /// Returns the data, and no copy of it.
    pub fn into_data(self) -> Json
        ensures value { view result ≡ data_of self }
        ensures in_range { has_float (view result) ≡ false }
    {
        let Context { value } = self;
        value
    }

    /// Returns a copy of the context.
    ///
    /// # Errors
    ///
    /// Fails if memory runs out.
    pub fn clone(&self, _alloc: Global) -> Result<Context, AllocError>
        ensures { IfOk result (λ copy. data_of copy ≡ data_of self.now) }
    {
        Ok(Context {
            value: self.value.clone()?,
        })
    }

    /// Returns what the segments of a path lead to in these blocks and this data. A value that a block holds is copied, and a
    /// value of the data is borrowed.
    ///
    /// # Errors
    ///
    /// Fails with `InvalidJsonIndex` for a name that isn't an index of an array, as the definition `navigate` says, and with
    /// `OutOfMemory` if memory runs out.
    pub fn navigate<'rc>(
        &'rc self,
        alloc: Global,
        relative_path: &[PathSeg],
        block_contexts: &VecDeque<BlockContext>,
        recursive_lookup: bool,
    ) -> Result<ScopedJson<'rc>, RenderError>
        ensures found { Answers found_of result (navigate recursive_lookup
            (frames_of block_contexts.now.items) (segments_of relative_path.now) (data_of self.now)) }
        ensures plain { IfOk result (λ found. is_constant found ≡ false) }
    {
        navigate(
            alloc,
            &self.value,
            relative_path,
            block_contexts,
            recursive_lookup,
        )
    }

    /// Replaces the data. Visits all of the new data.
    ///
    /// # Errors
    ///
    /// Fails with `InvalidNumber` if a number is outside the range. Then nothing is changed.
    pub fn set_data(&mut self, given: Json) -> Result<(), RenderError>
        ensures range { TestsRange (view given) result }
        ensures ok { OnOk result (data_of self.new ≡ view given) }
        ensures err { OnErr result (self.new ≡ self.old) }
    {
        *self = Context::try_from(given)?;
        Ok(())
    }
}

// Returns the text that serde_json writes for a value, if it writes one.
fn written<T: Serialize>(alloc: Global, source: &T) -> Result<String, serde_json::Error>
    ensures { IfOk result (λ text. (log : Log) × T.writes source.now (Some []) log × IsTextOf log (string_bytes text)) }
{
    serde_json::to_string(alloc, source)
}

// Returns the JSON value that is read from the text that `write` returns. `write` may fail for its own reasons. Apart from
// out of memory, a text that it returned fails only if it isn't read.
fn read_back<T, F: FnOnce(Global, &T) -> Result<String, serde_json::Error>>(
    alloc: Global,
    source: &T,
    write: F,
) -> Result<Json, serde_json::Error>
    requires { F.IsAlwaysCallable write }
    ensures ok { IfOk result (λ value. (text : String Global) × F.post write alloc source.entry (Ok text)
        × (read (string_bytes text) ≡ Some (view value))) }
    ensures err { IfErr result (λ e. ¬ IsMemory e → F.post write alloc source.entry (Err e)
        ⊎ ((text : String Global) × F.post write alloc source.entry (Ok text) × (read (string_bytes text) ≡ None))) }
{
    match write(alloc, source) {
        Ok(text) => match Json::from_str(alloc, text.as_str()) {
            Ok(value) => Ok(value),
            Err(cause) => Err(cause),
        },
        Err(cause) => Err(cause),
    }
}

// Returns the error for a failure of serde_json: `OutOfMemory` if memory ran out, otherwise `SerdeError`.
fn failed(cause: serde_json::Error) -> RenderError
    ensures memory { IsMemory cause → reason_in result ≡ out_of_memory }
    ensures other { ¬ (IsMemory cause) → reason_in result ≡ serde_error }
    ensures plain { location_of result ≡ nowhere }
{
    if cause.is_memory() {
        RenderErrorReason::OutOfMemory.into()
    } else {
        RenderErrorReason::SerdeError(cause).into()
    }
}

/// Fails with `InvalidNumber` if a number is outside the range. Visits all of the data.
impl TryFrom<Json> for Context {
    type Error = RenderError;

    ghost use Rattle.std.specs.Prelude.{◌≡◌, IfOk};
    ghost use Rattle.serde_json.specs.View.{view};
    ghost use Rattle.handlebars_scope.specs.Contexts.{data_of, TestsRange};

    ghost try_from_gives = { λ v r. TestsRange (view v) r × IfOk r (λ c. data_of c ≡ view v) };

    fn try_from(given: Json) -> Result<Context, RenderError> {
        if has_float(&given) {
            return Err(RenderErrorReason::InvalidNumber.into());
        }
        Ok(Context { value: given })
    }
}
