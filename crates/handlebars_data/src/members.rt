// The members of objects.

ghost use Rattle.std.specs.Prelude.{◌≡◌, OnErr, OnOk, string_bytes};
ghost use Rattle.serde_json.specs.Data.{put};
ghost use Rattle.serde_json.specs.View.{members_view, view};

use serde_json::Value;
use std::alloc::AllocError;
use std::collections::BTreeMap;

/// Puts a value under a key. A value that the key had is replaced.
pub(crate) fn put(
    members: &mut BTreeMap<String, Value>,
    key: String,
    value: Value,
) -> Result<(), AllocError>
    ensures ok { OnOk result (members_view members.new.entries
        ≡ put (string_bytes key) (view value) (members_view members.old.entries)) }
    ensures err { OnErr result (members.new.entries ≡ members.old.entries) }
{
    members.insert(key, value)?;
    Ok(())
}
