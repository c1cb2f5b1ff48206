//! Formats of data.

ghost use Rattle.std.specs.Prelude.{◌≡◌, IfErr, IfOk, codes, nat_eq};
ghost use Rattle.std.specs.List.{ends_with};
ghost use Rattle.serde_json.specs.View.{view};
ghost use Rattle.handlebars_data.specs.Errors.{IsMemory};
ghost use Rattle.handlebars_data.specs.Format.{HasNoData, IsDataOf, format_of_name, format_of_path};

use crate::error::DataError;
use crate::json_text::{Numbers, read_json};
use crate::lines::read_lines;
use crate::rows::{Delimiter, read_rows};
use crate::toml_text::read_toml;
use crate::utf8::text_of;
use serde_json::Value;
use std::alloc::Global;

/// A format of data.
#[derive(Clone, Copy, Debug, Drop, PartialEq, Eq)]
pub enum Format {
    Json,
    JsonLines,
    Toml,
    Csv,
    Tsv,
}

impl Format {
    /// Returns the format with a name: `json`, `jsonl` or `ndjson`, `toml`, `csv` or `tsv`.
    pub fn of_name(name: &str) -> Option<Format>
        ensures { result ≡ format_of_name name.now }
    {
        match name {
            "json" => Some(Format::Json),
            "jsonl" | "ndjson" => Some(Format::JsonLines),
            "toml" => Some(Format::Toml),
            "csv" => Some(Format::Csv),
            "tsv" => Some(Format::Tsv),
            _ => None,
        }
    }

    /// Returns the format of a file by the extension of its path, which is the name of the format.
    pub fn of_path(path: &str) -> Option<Format>
        ensures { result ≡ format_of_path path.now }
    {
        if ends_with(path, ".json") {
            Some(Format::Json)
        } else if ends_with(path, ".jsonl") || ends_with(path, ".ndjson") {
            Some(Format::JsonLines)
        } else if ends_with(path, ".toml") {
            Some(Format::Toml)
        } else if ends_with(path, ".csv") {
            Some(Format::Csv)
        } else if ends_with(path, ".tsv") {
            Some(Format::Tsv)
        } else {
            None
        }
    }
}

fn ends_with(text: &str, end: &str) -> bool
    ensures { result ≡ ends_with nat_eq text.now end.now }
{
    text.ends_with(end)
}

/// Reads the bytes of a file. JSON lines and the rows of a table become an array. `numbers` says what becomes of a number that is
/// no integer of 64 bits. The fields of a table are texts.
///
/// # Errors
///
/// Fails as [`read_json`], [`read_lines`], [`read_toml`] and [`read_rows`] do. Also fails if the bytes are not UTF-8, with the
/// position of the first byte that is not.
pub fn read_data(
    alloc: Global,
    format: Format,
    bytes: &[u8],
    numbers: Numbers,
) -> Result<Value, DataError>
    ensures ok { IfOk result (λ v. IsDataOf format numbers bytes.now (view v)) }
    ensures refused { IfErr result (λ e. ¬ IsMemory e → HasNoData format numbers bytes.now) }
{
    match format {
        Format::Json => read_json(alloc, text_of(bytes)?, numbers),
        Format::JsonLines => read_lines(alloc, text_of(bytes)?, numbers),
        Format::Toml => read_toml(alloc, text_of(bytes)?, numbers),
        Format::Csv => read_rows(alloc, bytes, Delimiter::Comma),
        Format::Tsv => read_rows(alloc, bytes, Delimiter::Tab),
    }
}
