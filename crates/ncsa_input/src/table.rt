// The fields of NCSA logs.
ghost use Rattle.std.specs.Prelude.{◌≡◌, map};
ghost use Rattle.ncsa_input.specs.Table.{NcsaField, ncsa_fields, field_reading};

use slot_reading::{SlotReading, is_same_name};

/// The names of all fields of a row, in order.
pub fn ncsa_names() -> [&'static str; 12]
    ensures { map (λ s. s.now) result ≡ map (λ (field : NcsaField). field.name) ncsa_fields }
{
    [
        "LogFilename",
        "LogRow",
        "RemoteHostName",
        "RemoteLogName",
        "UserName",
        "DateTime",
        "Request",
        "StatusCode",
        "BytesSent",
        "Referer",
        "User-Agent",
        "Cookie",
    ]
}

/// How a field is read, by its name, whatever the name's case; `None` for a name that isn't in the table.
#[tactic(auto, unfolding(crate::specs::Table::field_reading))]
pub fn ncsa_reading(name: &str) -> Option<SlotReading>
    ensures { result ≡ field_reading name.now }
{
    if is_same_name(name, "LogFilename") {
        Some(SlotReading::Text)
    } else if is_same_name(name, "LogRow") {
        Some(SlotReading::Integer)
    } else if is_same_name(name, "RemoteHostName") {
        Some(SlotReading::Text)
    } else if is_same_name(name, "RemoteLogName") {
        Some(SlotReading::Text)
    } else if is_same_name(name, "UserName") {
        Some(SlotReading::Text)
    } else if is_same_name(name, "DateTime") {
        Some(SlotReading::Clf)
    } else if is_same_name(name, "Request") {
        Some(SlotReading::Text)
    } else if is_same_name(name, "StatusCode") {
        Some(SlotReading::Integer)
    } else if is_same_name(name, "BytesSent") {
        Some(SlotReading::Integer)
    } else if is_same_name(name, "Referer") {
        Some(SlotReading::Text)
    } else if is_same_name(name, "User-Agent") {
        Some(SlotReading::Text)
    } else if is_same_name(name, "Cookie") {
        Some(SlotReading::Text)
    } else {
        None
    }
}
