// What a document has at its keys.
ghost use Rattle.std.specs.Prelude.{◌≡◌, map, option_map};
ghost use Rattle.toml.specs.View.{view};
ghost use Rattle.acct_config.specs.Document.{get_in, text_of, number_of, elements, elements_of};

use toml::Value;

/// What is at a key of the table at a key.
pub fn get_in<'a>(document: &'a Value, section: &str, key: &str) -> Option<&'a Value>
    ensures { option_map (λ v. view v.now) result ≡ get_in section.now key.now (view document.now) }
{
    document.get(section)?.get(key)
}

/// The text that was found, or an empty one.
pub fn text_of(found: Option<&Value>) -> &str
    ensures { result.now ≡ text_of (option_map (λ v. view v.now) found.entry) }
{
    match found {
        Some(Value::String(text)) => text.as_str(),
        _ => "",
    }
}

/// The number that was found, or another.
pub fn number_of(absent: i64, found: Option<&Value>) -> i64
    ensures { result ≡ number_of absent (option_map (λ v. view v.now) found.entry) }
{
    match found {
        Some(Value::Integer(number)) => *number,
        _ => absent,
    }
}

/// The elements of an array. Another value has none.
pub fn elements(value: &Value) -> &[Value]
    ensures { map view result.now ≡ elements (view value.now) }
{
    match value {
        Value::Array(values) => values,
        _ => &[],
    }
}

/// The elements of the array that was found.
pub fn elements_of(found: Option<&Value>) -> &[Value]
    ensures { map view result.now ≡ elements_of (option_map (λ v. view v.now) found.entry) }
{
    match found {
        Some(value) => elements(value),
        None => &[],
    }
}
