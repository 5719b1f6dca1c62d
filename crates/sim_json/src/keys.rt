//! Which keys an object has, so that a file with a key too many is refused.

ghost use Rattle.{serde_json.specs.View.{members_view, view}, sim_json.specs.Keys.{among, other_key as has_other_key, other_member, texts_of}};
ghost use Rattle.std.specs.Prelude.{◌≡◌};

use serde_json::{Map, Value};

/// Whether an object has a key that is none of these. A value that is no object has none.
pub fn other_key(value: &Value, keys: &[&str]) -> bool
    ensures { result ≡ has_other_key (texts_of keys.now) (view value.now) }
{
    match value.as_object() {
        Some(members) => other_member_in(members, keys),
        None => false,
    }
}

fn other_member_in(members: &Map<String, Value>, keys: &[&str]) -> bool
    ensures { result ≡ other_member (texts_of keys.now) (members_view members.now.entries) }
{
    for (key, _) in members.iter() {
        if !is_among(key, keys) {
            return true;
        }
    }
    false
}

/// Whether a text is one of these.
pub fn is_among(key: &str, keys: &[&str]) -> bool
    ensures { result ≡ among key.now (texts_of keys.now) }
{
    let mut rest = keys;
    while let [first, more @ ..] = rest {
        if key == *first {
            return true;
        }
        rest = more;
    }
    false
}
