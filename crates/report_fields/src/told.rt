// What is told, as a line and as an object.
ghost use Rattle.std.specs.Prelude.{◌≡◌, false};
ghost use Rattle.serde_json.specs.View.{view};
ghost use Rattle.serde_json.specs.Written.{has_float};

use serde_json::Value;

/// What is told, made of one list of parts: the text of its line, and its object. No number of it is a float.
#[derive(Drop)]
pub struct Told {
    pub(crate) line: String,
    pub(crate) object: Value,
    ghost whole: { has_float (view object) ≡ false },
}
