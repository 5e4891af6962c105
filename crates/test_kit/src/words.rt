//! What a fault says.
use std::alloc::Global;
use std::fmt::Display;

/// Whether `Display` tells a fault in just these words.
pub fn says<F: Display>(alloc: Global, fault: &F, words: &str) -> bool {
    match format!(in alloc; "{fault}") {
        Ok(text) => text.as_str() == words,
        Err(_) => false,
    }
}

/// Whether each fault displays in the words beside it.
pub fn all_say<F: Display>(alloc: Global, faults: &[(F, &str)]) -> bool {
    for (fault, words) in faults {
        if !says(alloc, fault, words) {
            return false;
        }
    }
    true
}
