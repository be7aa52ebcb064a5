//! Names that are near to a word: what somebody may have meant who wrote the word.
#![tactic(auto)]

ghost use Rattle.std.specs.Prelude.{◌≡◌, ◌*◌, ◌++◌, ◌∷◌, [], ℕ, List, map, false, length, nat_le, option_map, IfOk, IfSome, IfNone};
ghost use Rattle.std.specs.List.{All};
ghost use Rattle.rv_near.specs.Near.{distance, is_near, IsBest, IsNearest};

use std::alloc::{AllocError, Global};
use strsim::osa_distance;

/// How many edits lead from a word to a name, case of ASCII letters ignored: a character more, less or another, or two
/// neighbours the other way round. Err where memory was refused.
pub fn distance(alloc: Global, word: &str, name: &str) -> Result<usize, AllocError>
    ensures { IfOk result (λ edits. edits ≡ distance word.now name.now) }
{
    let word = word.to_ascii_lowercase(alloc)?;
    let name = name.to_ascii_lowercase(alloc)?;
    osa_distance(alloc, word.as_str(), name.as_str())
}

// Whether so many edits make a name near to a word.
fn is_few(edits: usize, word: &str) -> bool
    ensures { result ≡ nat_le (3 * edits) (length word.now) }
{
    edits <= word.len() / 3
}

/// Whether a name is near to a word: at most one edit for each three bytes of the word leads there. Err where memory was
/// refused.
pub fn is_near(alloc: Global, word: &str, name: &str) -> Result<bool, AllocError>
    ensures { IfOk result (λ near. near ≡ is_near word.now name.now) }
{
    let edits = distance(alloc, word, name)?;
    Ok(is_few(edits, word))
}

// The nearest name so far, with how many edits lead there, after one more name. Err where memory was refused.
fn nearer<'a>(
    alloc: Global,
    word: &str,
    best: Option<(usize, &'a str)>,
    name: &'a str,
) -> Result<Option<(usize, &'a str)>, AllocError>
    ensures { (names : List (List ℕ)) → IsBest word.now names (option_map (λ p. (p.0, p.1.now)) best.entry)
        → IfOk result (λ found. IsBest word.now (names ++ name.now ∷ []) (option_map (λ p. (p.0, p.1.now)) found)) }
{
    let edits = distance(alloc, word, name)?;
    match best {
        Some((least, _)) => {
            if edits < least {
                return Ok(Some((edits, name)));
            }
            Ok(best)
        }
        None => {
            if is_few(edits, word) {
                return Ok(Some((edits, name)));
            }
            Ok(None)
        }
    }
}

/// The name that is nearest to a word, the first of several that are; `None` where none is near. Err where memory was
/// refused.
pub fn nearest<'a>(
    alloc: Global,
    word: &str,
    names: &[&'a str],
) -> Result<Option<&'a str>, AllocError>
    ensures some { IfOk result (λ found. IfSome found (λ name. IsNearest word.now (map (λ n. n.now) names.now) name.now)) }
    ensures none { IfOk result (λ found. IfNone found (All (λ name. is_near word.now name ≡ false) (map (λ n. n.now) names.now))) }
{
    let mut best = None;
    for name in names {
        best = nearer(alloc, word, best, *name)?;
    }
    match best {
        Some((_, name)) => Ok(Some(name)),
        None => Ok(None),
    }
}

#[cfg(test)]
mod tests {
    use crate::nearest;

    // What is nearest to a word among the names of a unit.
    fn near_to(alloc: std::alloc::Global, word: &str) -> Option<&'static str> {
        let names: [&'static str; 4] = ["Valve", "Set_True", "Guard", "Get"];
        match nearest(alloc, word, &names) {
            Ok(found) => found,
            Err(_) => Some("no memory"),
        }
    }

    #[test]
    fn misspelt_words(rt: HostRuntime) {
        let alloc = rt.alloc();
        assert_eq!(rt; near_to(alloc, "Vlave"), Some("Valve"));
        assert_eq!(rt; near_to(alloc, "GAURD"), Some("Guard"));
        assert_eq!(rt; near_to(alloc, "Set_Ture"), Some("Set_True"));
        assert_eq!(rt; near_to(alloc, "Set"), Some("Get"));
        assert_eq!(rt; near_to(alloc, "Open"), None);
        assert_eq!(rt; near_to(alloc, ""), None);
    }
}
