ghost use Rattle.std.specs.Prelude.{◌≡◌, map, OnOk};
ghost use Rattle.serde_json.specs.Data.{put, string};
ghost use Rattle.serde_json.specs.View.{members_view, view};
ghost use Rattle.tr_encoding.specs.Sets.{array_data, number_data};

use serde_json::{Map, Value, put};
use std::alloc::{AllocError, Global};

/// Puts a whole number at a key.
pub(crate) fn put_number(
    object: &mut Map<String, Value>,
    alloc: Global,
    key: &str,
    number: u32,
) -> Result<(), AllocError>
    ensures { OnOk result (members_view object.new.entries
        ≡ put key.now (number_data number) (members_view object.old.entries)) }
{
    put(object, alloc, key, Value::from(number))
}

/// Puts a text at a key.
pub(crate) fn put_text(
    object: &mut Map<String, Value>,
    alloc: Global,
    key: &str,
    text: &str,
) -> Result<(), AllocError>
    ensures { OnOk result (members_view object.new.entries
        ≡ put key.now (string text.now) (members_view object.old.entries)) }
{
    put(object, alloc, key, Value::try_from_str(alloc, text)?)
}

/// Puts an array at a key.
pub(crate) fn put_array(
    object: &mut Map<String, Value>,
    alloc: Global,
    key: &str,
    values: Vec<Value>,
) -> Result<(), AllocError>
    ensures { OnOk result (members_view object.new.entries
        ≡ put key.now (array_data (map view values.items)) (members_view object.old.entries)) }
{
    put(object, alloc, key, Value::Array(values))
}
