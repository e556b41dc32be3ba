//! What is added to a line in many places.

use pp_case_line::CaseLine;

/// Two words.
pub fn push_word(out: &mut CaseLine, before: &str, word: &str) {
    out.put(before);
    out.put(word);
}

/// A number behind a word.
pub fn push_number(out: &mut CaseLine, before: &str, number: u32) {
    out.put(before);
    out.put(number);
}

/// A size behind a word.
pub fn push_size(out: &mut CaseLine, before: &str, size: usize) {
    out.put(before);
    out.put(size);
}

/// An offset.
pub fn push_at(out: &mut CaseLine, at: u32) {
    push_number(out, " ", at);
    out.put(":");
}

/// A name behind its offset.
pub fn push_name(out: &mut CaseLine, at: u32, name: &str) {
    push_at(out, at);
    out.put(name);
}
