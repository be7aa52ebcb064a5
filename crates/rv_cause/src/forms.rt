//! What is said of a word, by a table.

use rv_text::is_same_name;

/// What is said of a word.
#[derive(Clone, Copy)]
pub struct Form {
    pub word: &'static str,
    pub said: &'static str,
}

/// What the first form says that has this name, case ignored.
pub fn said_of_name(forms: &[Form], name: &str) -> Option<&'static str> {
    for form in forms {
        if is_same_name(form.word, name) {
            return Some(form.said);
        }
    }
    None
}

/// Whether a word is one of a list of words, case ignored.
pub fn is_listed(list: &[&str], word: &str) -> bool {
    for one in list {
        if is_same_name(one, word) {
            return true;
        }
    }
    false
}
