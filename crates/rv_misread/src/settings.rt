//! Which line of settings is refused. Each is judged by the reader: a key alone, a value in a device that is right but for it.

use rv_settings::{SettingsFault, read_settings};
use rv_text::{next_line, next_word};
use std::alloc::{AllocError, Global};

/// Why settings are refused. A place is the byte of the text where a line begins.
#[derive(Clone, Copy)]
pub enum SettingsReason<'a> {
    /// The text is no TOML from this place on.
    NotToml(usize),
    /// The settings, or the device where the line stands in one, have no such key.
    NoKey(usize, bool, &'a str),
    /// The line opens a table that settings don't have.
    NoTable(usize, &'a str),
    /// The key takes another value.
    BadValue(usize, &'a str),
    /// The device that the line opens lacks a key.
    Lacks(usize, &'static str),
}

// In which table a line stands.
#[derive(Clone, Copy, PartialEq)]
enum Table {
    Top,
    Device,
    Other,
}

// A line with a key, which is empty where it opens a table.
#[derive(Clone, Copy)]
struct Entry<'a> {
    table: Table,
    key: &'a str,
    line: &'a str,
    // The byte of the text where the line begins.
    at: usize,
}

// A key of a device, with a value that it takes.
#[derive(Clone, Copy)]
struct Setting {
    key: &'static str,
    line: &'static str,
}

const DEVICE: [Setting; 6] = [
    Setting {
        key: "unit",
        line: "unit = \"U\"\n",
    },
    Setting {
        key: "task",
        line: "task = \"T\"\n",
    },
    Setting {
        key: "object",
        line: "object = \"U.O\"\n",
    },
    Setting {
        key: "operation",
        line: "operation = \"P\"\n",
    },
    Setting {
        key: "priority",
        line: "priority = 1\n",
    },
    Setting {
        key: "calls",
        line: "calls = 1\n",
    },
];

// The fault of settings, if they have one. Err where memory was refused.
fn fault_of(alloc: Global, text: &str) -> Result<Option<SettingsFault>, AllocError> {
    match read_settings(alloc, text) {
        Ok(_) => Ok(None),
        Err(SettingsFault::NoMemory) => Err(AllocError),
        Err(fault) => Ok(Some(fault)),
    }
}

// The first word of a line, if it has one.
fn first_word(line: &str) -> Option<&str> {
    let (word, _) = next_word(line)?;
    Some(word)
}

// A key without the quotes that it may stand in.
fn without_quotes(key: &str) -> &str {
    for quote in &["'", "\""] {
        if let Some(inner) = key.strip_prefix(*quote) {
            return inner.strip_suffix(*quote).unwrap_or(key);
        }
    }
    key
}

// The key of a line that opens no table, if it has one, with a value.
fn key_of(line: &str) -> Option<&str> {
    let (left, right) = line.split_once('=')?;
    let _ = first_word(right)?;
    Some(without_quotes(first_word(left)?))
}

// The table that a line stands in which begins with this word, and whose own key is empty or stands in the word.
fn opened(word: &str) -> Option<(Table, &'static str)> {
    if word == "[device]" {
        return Some((Table::Top, "device"));
    }
    if word == "[[device]]" {
        return Some((Table::Device, ""));
    }
    if word.starts_with("[") {
        return Some((Table::Other, ""));
    }
    None
}

// What a line is that stands in a table, if it opens a table or has a key.
fn entry_of<'a>(table: Table, line: &'a str, at: usize) -> Option<Entry<'a>> {
    let word = first_word(line)?;
    if word.starts_with("#") || word.starts_with("{") {
        return None;
    }
    if let Some((table, key)) = opened(word) {
        return Some(Entry {
            table,
            key,
            line,
            at,
        });
    }
    let key = key_of(line)?;
    Some(Entry {
        table,
        key,
        line,
        at,
    })
}

// The lines of settings that open tables or have keys.
fn entries_of<'a>(alloc: Global, text: &'a str) -> Result<Vec<Entry<'a>>, AllocError> {
    let mut entries = Vec::new(alloc);
    let mut table = Table::Top;
    let mut rest = text;
    'each: while let Some((line, behind)) = next_line(rest) {
        let at = text.len().saturating_sub(rest.len());
        if let Some(entry) = entry_of(table, line, at) {
            table = entry.table;
            entries.push(entry)?;
        }
        rest = behind;
    }
    Ok(entries)
}

// The lines of a device that is right, but for a key that it lacks.
fn device_without(alloc: Global, key: &str) -> Result<String, AllocError> {
    let mut text = String::from_str(alloc, "[[device]]\n")?;
    for setting in &DEVICE {
        if setting.key != key {
            text.push_str(setting.line)?;
        }
    }
    Ok(text)
}

impl<'a> Entry<'a> {
    // Whether the table where it stands hasn't its key.
    fn is_unknown(&self, alloc: Global) -> Result<bool, AllocError> {
        let opening = if self.table == Table::Device {
            "[[device]]\n"
        } else {
            ""
        };
        let key = self.key;
        let text = format!(in alloc; "{opening}\"{key}\" = 0")?;
        Ok(fault_of(alloc, text.as_str())? == Some(SettingsFault::UnknownKey))
    }

    // Whether its key takes another value.
    fn is_bad(&self, alloc: Global) -> Result<bool, AllocError> {
        if self.table != Table::Device {
            return Ok(fault_of(alloc, self.line)? == Some(SettingsFault::BadValue));
        }
        let mut text = device_without(alloc, self.key)?;
        text.push_str(self.line)?;
        Ok(fault_of(alloc, text.as_str())? == Some(SettingsFault::BadValue))
    }

    // The first key that the device lacks whose lines these are, from its opening on.
    fn lacks(&self, alloc: Global, lines: &str) -> Result<Option<SettingsReason<'a>>, AllocError> {
        for setting in &DEVICE {
            let line = setting.line;
            let text = format!(in alloc; "{lines}\n{line}")?;
            if fault_of(alloc, text.as_str())? != Some(SettingsFault::NotToml) {
                return Ok(Some(SettingsReason::Lacks(self.at, setting.key)));
            }
        }
        Ok(None)
    }
}

/// Where settings are no TOML; `None` where they are. Err where memory was refused.
pub fn not_toml(alloc: Global, text: &str) -> Result<Option<SettingsReason<'_>>, AllocError> {
    if fault_of(alloc, text)? != Some(SettingsFault::NotToml) {
        return Ok(None);
    }
    let at = match toml::table_from_str(alloc, text) {
        Ok(_) => 0,
        Err(error) => match error.span() {
            Some(span) => span.start,
            None => 0,
        },
    };
    Ok(Some(SettingsReason::NotToml(at)))
}

/// Which key settings don't have, the first in the text; `None` where there is none in a line of its own. Err where memory was refused.
pub fn unknown_key(alloc: Global, text: &str) -> Result<Option<SettingsReason<'_>>, AllocError> {
    let entries = entries_of(alloc, text)?;
    for entry in entries.as_slice() {
        if entry.key.is_empty() {
            if entry.table == Table::Other {
                let word = first_word(entry.line).unwrap_or("");
                return Ok(Some(SettingsReason::NoTable(entry.at, word)));
            }
        } else if entry.is_unknown(alloc)? {
            let is_of_device = entry.table == Table::Device;
            return Ok(Some(SettingsReason::NoKey(entry.at, is_of_device, entry.key)));
        }
    }
    Ok(None)
}

// The place where the next table opens behind so many entries, or the text's length.
fn next_table(entries: &[Entry<'_>], from: usize, end: usize) -> usize {
    for entry in entries.iter().skip(from) {
        if entry.key.is_empty() {
            return entry.at;
        }
    }
    end
}

// Which key a device lacks, the first that lacks one.
fn lacking<'a>(
    alloc: Global,
    text: &'a str,
    entries: &[Entry<'a>],
) -> Result<Option<SettingsReason<'a>>, AllocError> {
    for (number, entry) in entries.iter().enumerate() {
        if entry.key.is_empty() && entry.table == Table::Device {
            let end = next_table(entries, number.saturating_add(1), text.len());
            let lines = text.get(entry.at..end).unwrap_or("");
            if let Some(reason) = entry.lacks(alloc, lines)? {
                return Ok(Some(reason));
            }
        }
    }
    Ok(None)
}

/// Which value is of another type or outside its limits, the first in the text, or which key a device lacks; `None` where neither stands
/// in a line of its own. Err where memory was refused.
pub fn bad_value(alloc: Global, text: &str) -> Result<Option<SettingsReason<'_>>, AllocError> {
    let entries = entries_of(alloc, text)?;
    for entry in entries.as_slice() {
        if !entry.key.is_empty() && entry.is_bad(alloc)? {
            return Ok(Some(SettingsReason::BadValue(entry.at, entry.key)));
        }
    }
    lacking(alloc, text, entries.as_slice())
}
