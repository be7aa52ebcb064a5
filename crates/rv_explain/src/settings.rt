//! What stands against settings.

use crate::line::said_of;
use rv_cause::cause::Cause;
use rv_cause::forms::Form;
use rv_misread::{SettingsReason, bad_value, not_toml, unknown_key};
use rv_near::nearest;
use rv_settings::SettingsFault;
use std::alloc::{AllocError, Global};

// The keys of the settings and of a device.
const ALL: [&str; 10] = [
    "capacity",
    "budget",
    "queue_limit",
    "device",
    "unit",
    "task",
    "object",
    "operation",
    "priority",
    "calls",
];

const ALL_KEYS: &str =
    "the keys are capacity, budget, queue_limit and device; those of a device unit, task, object, operation, priority and calls";

const NAME: &str = "{0} is a name in quotes, as \"Get\"";

const CALLS: &str = "{0} is a whole number, 1 .. 1000000";

// What the value of a key is.
const VALUES: [Form; 10] = [
    Form {
        word: "capacity",
        said: "capacity is a whole number, 16 .. 1048576",
    },
    Form {
        word: "budget",
        said: CALLS,
    },
    Form {
        word: "queue_limit",
        said: "queue_limit is a whole number, 1 .. 8",
    },
    Form {
        word: "calls",
        said: CALLS,
    },
    Form {
        word: "priority",
        said: "priority is a whole number, 1 .. 40",
    },
    Form {
        word: "unit",
        said: NAME,
    },
    Form {
        word: "task",
        said: NAME,
    },
    Form {
        word: "operation",
        said: NAME,
    },
    Form {
        word: "object",
        said: "object is Unit.Object in quotes",
    },
    Form {
        word: "device",
        said: "devices are tables of their own: write [[device]]",
    },
];

const NOT_TOML: &str = "this is no TOML";

const OTHER_VALUE: &str = "a value is of another type, or out of its range";

// What is said of a key that is one of the settings, but not of where it stands: in a device or not.
fn said_of_place(is_of_device: bool) -> &'static str {
    if is_of_device {
        "{0} stands in a device; put it above [[device]]"
    } else {
        "{0} is a key of devices; put it below [[device]]"
    }
}

// What is said of a key that is none, where it stands in a device or not.
fn said_of_key(is_of_device: bool) -> &'static str {
    if is_of_device {
        "unknown key {0}; a device has unit, task, object, operation, priority and calls"
    } else {
        "unknown key {0}; the keys are capacity, budget, queue_limit and device"
    }
}

// What is said of a key that isn't one of where it stands.
fn no_key<'a>(
    alloc: Global,
    at: usize,
    is_of_device: bool,
    key: &'a str,
) -> Result<Cause<'a>, AllocError> {
    if said_of(&VALUES, key).is_some() {
        return Ok(Cause::of(at, said_of_place(is_of_device), key));
    }
    match nearest(alloc, key, &ALL)? {
        Some(near) => Ok(Cause::pair(at, "unknown key {0}; did you mean {1}?", key, near)),
        None => Ok(Cause::of(at, said_of_key(is_of_device), key)),
    }
}

// The line of a text that a byte stands in.
fn line_at(text: &str, at: usize) -> &str {
    let front = text.get(..at).unwrap_or("");
    let before = match front.rsplit_once('\n') {
        Some((_, behind)) => behind,
        None => front,
    };
    let start = front.len().saturating_sub(before.len());
    let rest = text.get(start..).unwrap_or("");
    match rest.split_once('\n') {
        Some((line, _)) => line,
        None => rest,
    }
}

// What is said of a line that is no TOML.
fn said_of_line(line: &str) -> &'static str {
    if line.contains("--") || line.contains("//") {
        "a comment of settings begins with #"
    } else if line.contains(":") && !line.contains("=") {
        "`=` stands between a key and its value: write key = value"
    } else {
        NOT_TOML
    }
}

// What is said of a text by a reason.
fn told<'a>(
    alloc: Global,
    text: &str,
    reason: SettingsReason<'a>,
) -> Result<Cause<'a>, AllocError> {
    match reason {
        SettingsReason::NotToml(at) => Ok(Cause::plain(at, said_of_line(line_at(text, at)))),
        SettingsReason::NoKey(at, is_of_device, key) => no_key(alloc, at, is_of_device, key),
        SettingsReason::NoTable(at, word) => {
            Ok(Cause::of(at, "unknown table {0}; devices are [[device]]", word))
        }
        SettingsReason::BadValue(at, key) => {
            Ok(Cause::of(at, said_of(&VALUES, key).unwrap_or(OTHER_VALUE), key))
        }
        SettingsReason::Lacks(at, key) => {
            Ok(Cause::of(at, "this device lacks the key {0}", key))
        }
    }
}

/// The cause of a fault of settings. Err where memory was refused.
pub(crate) fn cause_of_settings(
    alloc: Global,
    text: &str,
    fault: SettingsFault,
) -> Result<Cause<'_>, AllocError> {
    let (reason, other) = match fault {
        SettingsFault::NotToml => (not_toml(alloc, text)?, NOT_TOML),
        SettingsFault::NoMemory => return Ok(Cause::plain(0, "memory was refused")),
        SettingsFault::UnknownKey => (unknown_key(alloc, text)?, ALL_KEYS),
        SettingsFault::BadValue => (bad_value(alloc, text)?, OTHER_VALUE),
    };
    match reason {
        Some(reason) => told(alloc, text, reason),
        None => Ok(Cause::plain(0, other)),
    }
}
