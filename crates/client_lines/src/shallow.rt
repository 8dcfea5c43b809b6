//! Values that nest few levels deep, so that their text can be read.

ghost use Rattle.std.specs.Prelude.{◌≤◌};
ghost use Rattle.serde_json.specs.Data.{depth, members_depth};
ghost use Rattle.serde_json.specs.View.{members_view, view};

use serde_json::{Map, Value};

/// A value whose objects and arrays nest at most 8 deep.
#[derive(Debug, Drop)]
pub(crate) struct ShallowValue {
    pub value: Value,
    ghost bound: { depth (view value) ≤ 8 },
}

/// Members whose objects and arrays nest at most 8 deep.
#[derive(Debug, Drop)]
pub(crate) struct ShallowMembers {
    pub members: Map<String, Value>,
    ghost bound: { members_depth (members_view members.entries) ≤ 8 },
}
