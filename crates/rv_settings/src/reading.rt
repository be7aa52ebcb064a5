//! Reading settings.

ghost use Rattle.std.specs.Prelude.{◌≡◌, ◌≤ℤ◌, Some, IfOk, IfErr, IsSome, codes, string_bytes};
ghost use Rattle.rv_text.specs.Names.{dotted_parts};
ghost use Rattle.toml.specs.Data.{as_table, get_member};
ghost use Rattle.toml.specs.View.{array_view, table_view, view};
ghost use Rattle.toml.specs.Parse.{parse_document};
ghost use Rattle.rv_settings.specs.Settings.{number_at, text_at, AreDevices, AreDevicesAt, AreOfTable, AreSettings, IsDevice, IsDeviceOf, IsName, IsOfValue, IsRefused, IsRefusedTable, IsSettings};

use crate::device::Device;
use crate::fault::SettingsFault;
use crate::faults::{device_table_fault, first_fault};
use crate::settings::Settings;
use rv_script::unit_text::unit_text;
use rv_text::{dotted_parts, is_identifier};
use std::alloc::Global;
use toml::value::Array;
use toml::{Table, Value};

// The whole number at a key, or this one where the key isn't set.
fn number_at(table: &Table, key: &str, default: i64) -> Option<i64>
    ensures { result ≡ number_at key.now default (table_view table.now) }
{
    match table.get(key) {
        Some(value) => value.as_integer(),
        None => Some(default),
    }
}

// A number within limits.
fn within(number: Option<i64>, least: i64, most: i64) -> Result<i64, SettingsFault>
    ensures ok { IfOk result (λ n. (number ≡ Some n) × (least ≤ℤ n) × (n ≤ℤ most)) }
    ensures err { IfErr result (λ e. e ≡ SettingsFault.BadValue) }
{
    match number {
        Some(number) => {
            if least <= number && number <= most {
                Ok(number)
            } else {
                Err(SettingsFault::BadValue)
            }
        }
        None => Err(SettingsFault::BadValue),
    }
}

// A copy of the text at a key.
fn text_at(alloc: Global, table: &Table, key: &str) -> Result<String, SettingsFault>
    ensures ok { IfOk result (λ text. text_at key.now (table_view table.now) ≡ Some (string_bytes text)) }
    ensures err { IfErr result IsOfValue }
{
    let Some(value) = table.get(key) else {
        return Err(SettingsFault::BadValue);
    };
    let Some(text) = value.as_str() else {
        return Err(SettingsFault::BadValue);
    };
    match String::from_str(alloc, text) {
        Ok(text) => Ok(text),
        Err(_) => Err(SettingsFault::NoMemory),
    }
}

// A copy of the identifier at a key.
fn name_at(alloc: Global, table: &Table, key: &str) -> Result<String, SettingsFault>
    ensures ok { IfOk result (λ name. IsName key.now (table_view table.now) (string_bytes name)) }
    ensures err { IfErr result IsOfValue }
{
    let name = text_at(alloc, table, key)?;
    if is_identifier(name.as_str()) {
        Ok(name)
    } else {
        Err(SettingsFault::BadValue)
    }
}

// A copy of the name of an object.
fn object_at(alloc: Global, table: &Table) -> Result<String, SettingsFault>
    ensures stands { IfOk result (λ object. text_at (codes "object") (table_view table.now) ≡ Some (string_bytes object)) }
    ensures dotted { IfOk result (λ object. IsSome (dotted_parts (string_bytes object))) }
    ensures err { IfErr result IsOfValue }
{
    let object = text_at(alloc, table, "object")?;
    if dotted_parts(object.as_str()).is_some() {
        Ok(object)
    } else {
        Err(SettingsFault::BadValue)
    }
}

// A copy of the device that a table is. One that lacks a key has a bad value there.
fn device_of(alloc: Global, table: &Table) -> Result<Device, SettingsFault>
    ensures ok { IfOk result (IsDevice (table_view table.now)) }
    ensures err { IfErr result IsOfValue }
{
    if let Some(fault) = device_table_fault(table) {
        return Err(fault);
    }
    let unit = name_at(alloc, table, "unit")?;
    let task = name_at(alloc, table, "task")?;
    let object = object_at(alloc, table)?;
    let operation = name_at(alloc, table, "operation")?;
    let priority = within(number_at(table, "priority", 0), 1, 40)?;
    let calls = within(number_at(table, "calls", 0), 1, 1_000_000)?;
    Ok(Device {
        unit,
        task,
        priority: priority as u8,
        object,
        operation,
        calls: calls as u32,
    })
}

// A copy of the device that a value is.
fn device_in(alloc: Global, value: &Value) -> Result<Device, SettingsFault>
    ensures ok { IfOk result (IsDeviceOf (as_table (view value.now))) }
    ensures err { IfErr result IsOfValue }
{
    match value.as_table() {
        Some(table) => device_of(alloc, table),
        None => Err(SettingsFault::BadValue),
    }
}

// Copies of the devices of an array.
fn devices_in(alloc: Global, array: &Array) -> Result<Vec<Device>, SettingsFault>
    ensures ok { IfOk result (λ devices. AreDevices (array_view array.now) devices.items) }
    ensures err { IfErr result IsOfValue }
{
    let mut devices = Vec::new(alloc);
    'each: for value in array {
        let device = device_in(alloc, value)?;
        if devices.push(device).is_err() {
            return Err(SettingsFault::NoMemory);
        }
    }
    Ok(devices)
}

// Copies of the devices.
fn devices_of(alloc: Global, table: &Table) -> Result<Vec<Device>, SettingsFault>
    ensures ok { IfOk result (λ devices. AreDevicesAt (get_member (codes "device") (table_view table.now)) devices.items) }
    ensures err { IfErr result IsOfValue }
{
    let Some(value) = table.get("device") else {
        return Ok(Vec::new(alloc));
    };
    match value.as_array() {
        Some(array) => devices_in(alloc, array),
        None => Err(SettingsFault::BadValue),
    }
}

// The settings of a table.
fn settings_of(alloc: Global, table: &Table) -> Result<Settings, SettingsFault>
    ensures ok { IfOk result (AreSettings (table_view table.now)) }
    ensures err { IfErr result IsOfValue }
{
    if let Some(fault) = first_fault(table) {
        return Err(fault);
    }
    let capacity = within(number_at(table, "capacity", 4096), 16, 1_048_576)?;
    let budget = within(number_at(table, "budget", 1000), 1, 1_000_000)?;
    let queue_limit = within(number_at(table, "queue_limit", 1), 1, 8)?;
    let devices = devices_of(alloc, table)?;
    Ok(Settings {
        capacity: capacity as usize,
        budget: budget as u32,
        queue_limit: queue_limit as usize,
        devices,
    })
}

// The settings that a text is, every carriage return of which is its own.
fn settings_in(alloc: Global, text: &str) -> Result<Settings, SettingsFault>
    ensures ok { IfOk result (AreOfTable (parse_document text.now)) }
    ensures err { IfErr result (IsRefusedTable (parse_document text.now)) }
{
    match toml::table_from_str(alloc, text) {
        Ok(table) => settings_of(alloc, &table),
        Err(e) => {
            if e.is_memory() {
                Err(SettingsFault::NoMemory)
            } else {
                Err(SettingsFault::NotToml)
            }
        }
    }
}

/// Reads settings. First the text, without the carriage return before each line feed, is TOML; then keys
/// are looked at in the order of their bytes, those of a device where `device` stands; then each device has
/// all its keys.
pub fn read_settings(alloc: Global, text: &str) -> Result<Settings, SettingsFault>
    ensures ok { IfOk result (IsSettings text.now) }
    ensures err { IfErr result (IsRefused text.now) }
{
    match unit_text(alloc, text) {
        Ok(kept) => settings_in(alloc, kept.as_str()),
        Err(_) => Err(SettingsFault::NoMemory),
    }
}
