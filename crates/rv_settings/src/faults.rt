//! The first fault of settings: their keys are looked at in the order of their bytes, those of a device
//! where `device` stands.

ghost use Rattle.std.specs.Prelude.{◌≡◌, true, IfNone, IfSome};
ghost use Rattle.toml.specs.View.{table_view};
ghost use Rattle.rv_settings.specs.Settings.{IsOfValue, OnlyKeys, is_key, is_key_of_device};

use crate::fault::SettingsFault;
use rv_text::{dotted_parts, is_identifier};
use toml::{Table, Value};

// A whole number within limits.
fn is_number(value: &Value, least: i64, most: i64) -> bool {
    match value.as_integer() {
        Some(number) => least <= number && number <= most,
        None => false,
    }
}

// An identifier.
fn is_name(value: &Value) -> bool {
    match value.as_str() {
        Some(text) => is_identifier(text),
        None => false,
    }
}

// `Unit.Object`.
fn is_dotted(value: &Value) -> bool {
    match value.as_str() {
        Some(text) => dotted_parts(text).is_some(),
        None => false,
    }
}

// What stands against a value that is or isn't as it should be.
fn unless(is_good: bool) -> Option<SettingsFault>
    ensures { IfSome result IsOfValue }
{
    if is_good {
        None
    } else {
        Some(SettingsFault::BadValue)
    }
}

// What stands against a key of a device.
fn device_key(key: &str, value: &Value) -> Option<SettingsFault>
    ensures none { IfNone result (is_key_of_device key.now ≡ true) }
    ensures some { IfSome result IsOfValue }
{
    if key == "calls" {
        return unless(is_number(value, 1, 1_000_000));
    }
    if key == "object" {
        return unless(is_dotted(value));
    }
    if key == "priority" {
        return unless(is_number(value, 1, 40));
    }
    if key == "operation" || key == "task" || key == "unit" {
        return unless(is_name(value));
    }
    Some(SettingsFault::UnknownKey)
}

/// What stands against the keys of a device, if something does.
pub(crate) fn device_table_fault(table: &Table) -> Option<SettingsFault>
    ensures none { IfNone result (OnlyKeys is_key_of_device (table_view table.now)) }
    ensures some { IfSome result IsOfValue }
{
    for (key, value) in table.iter() {
        if let Some(fault) = device_key(key.as_str(), value) {
            return Some(fault);
        }
    }
    None
}

// What stands against a device.
fn device_fault(device: &Value) -> Option<SettingsFault>
    ensures { IfSome result IsOfValue }
{
    match device.as_table() {
        Some(table) => device_table_fault(table),
        None => Some(SettingsFault::BadValue),
    }
}

// What stands against devices.
fn devices_fault(devices: &Value) -> Option<SettingsFault>
    ensures { IfSome result IsOfValue }
{
    let Some(array) = devices.as_array() else {
        return Some(SettingsFault::BadValue);
    };
    for device in array.iter() {
        if let Some(fault) = device_fault(device) {
            return Some(fault);
        }
    }
    None
}

// What stands against a key.
fn key_fault(key: &str, value: &Value) -> Option<SettingsFault>
    ensures none { IfNone result (is_key key.now ≡ true) }
    ensures some { IfSome result IsOfValue }
{
    if key == "budget" {
        return unless(is_number(value, 1, 1_000_000));
    }
    if key == "capacity" {
        return unless(is_number(value, 16, 1_048_576));
    }
    if key == "device" {
        return devices_fault(value);
    }
    if key == "queue_limit" {
        return unless(is_number(value, 1, 8));
    }
    Some(SettingsFault::UnknownKey)
}

/// What stands against the keys that are set, if something does: an unknown key or a bad value.
pub fn first_fault(table: &Table) -> Option<SettingsFault>
    ensures none { IfNone result (OnlyKeys is_key (table_view table.now)) }
    ensures some { IfSome result IsOfValue }
{
    for (key, value) in table.iter() {
        if let Some(fault) = key_fault(key.as_str(), value) {
            return Some(fault);
        }
    }
    None
}
