//! The members of a JSON value.

ghost use Rattle.std.specs.Prelude.{◌≡◌, option_map, option_and_then};
ghost use Rattle.serde_json.specs.Find.{as_str};
ghost use Rattle.serde_json.specs.View.{view};
ghost use Rattle.rpc.specs.Fields.{integer_of, natural_of, text_at, integer_at, natural_at, has_key};

use serde_json::Value;

/// Whether anything stands under the key.
pub fn has_key(value: &Value, key: &str) -> bool
    ensures { result ≡ has_key key.now (view value.now) }
{
    value.get(key).is_some()
}

/// A whole number from -2,147,483,648 to 2,147,483,647.
pub fn integer_of(value: &Value) -> Option<i32>
    ensures { result ≡ integer_of (view value.now) }
{
    i32::try_from(value.as_i64()?).ok()
}

/// A whole number from 0 to 2,147,483,647.
pub fn natural_of(value: &Value) -> Option<u32>
    ensures { result ≡ natural_of (view value.now) }
{
    match value.as_u64() {
        Some(n) if n <= 2_147_483_647 => Some(n as u32),
        _ => None,
    }
}

/// The text that a member is.
pub fn text_of(member: Option<&Value>) -> Option<&str>
    ensures { option_map (λ s. s.now) result
        ≡ option_and_then as_str (option_map (λ v. view v.now) member.entry) }
{
    member?.as_str()
}

/// The text that stands under a key.
pub fn text_at<'v>(value: &'v Value, key: &str) -> Option<&'v str>
    ensures { option_map (λ s. s.now) result ≡ text_at key.now (view value.now) }
{
    value.get(key)?.as_str()
}

/// The number from -2,147,483,648 to 2,147,483,647 that stands under a key.
pub fn integer_at(value: &Value, key: &str) -> Option<i32>
    ensures { result ≡ integer_at key.now (view value.now) }
{
    integer_of(value.get(key)?)
}

/// The number from 0 to 2,147,483,647 that stands under a key.
pub fn natural_at(value: &Value, key: &str) -> Option<u32>
    ensures { result ≡ natural_at key.now (view value.now) }
{
    natural_of(value.get(key)?)
}
