// The forms of lines.
use crate::book::Book;
use tm_base::read_number;

/// The names of settings, beside those of registers.
const SETTINGS: &[&str] = &["calm", "desk", "err", "most", "out", "pc", "read"];

/// Whether the rest of a line has the form, whose letters `Kinds` tells.
pub fn has_form(texts: &Book, form: &str, rest: &str) -> bool {
    let mut left = rest;
    for letter in form.as_bytes() {
        if letter.is_ascii_uppercase() {
            return has_rest(texts, *letter, left);
        }
        let (word, behind) = left.split_once(' ').unwrap_or((left, ""));
        if !is_word(texts, *letter, word) {
            return false;
        }
        left = behind;
    }
    left.is_empty()
}

// Whether all that is left of a line is what an upper letter says.
fn has_rest(texts: &Book, letter: u8, left: &str) -> bool {
    match letter {
        b'X' => texts.is_text(left),
        b'C' => are_changes(left),
        b'S' => are_settings(left),
        _ => are_options(texts, left),
    }
}

fn is_word(texts: &Book, letter: u8, word: &str) -> bool {
    match letter {
        b'n' => is_number(word),
        b'o' => word.is_empty() || is_number(word),
        b't' => texts.has(word),
        _ => !word.is_empty(),
    }
}

fn is_number(word: &str) -> bool {
    read_number(word.as_bytes()).is_ok()
}

// Whether these are changes of a text: `AT=BYTE`, `cut=LEN`, `more=BYTE`.
fn are_changes(left: &str) -> bool {
    for change in left.split(' ') {
        let (place, value) = change.split_once('=').unwrap_or((change, ""));
        let known = place == "cut" || place == "more" || is_number(place);
        if !change.is_empty() && !(known && is_number(value)) {
            return false;
        }
    }
    true
}

// Whether these are settings, each a name, `=` and numbers between commas.
fn are_settings(left: &str) -> bool {
    for setting in left.split(' ') {
        let (name, numbers) = setting.split_once('=').unwrap_or((setting, ""));
        if !setting.is_empty() && !(is_setting(name) && are_numbers(numbers)) {
            return false;
        }
    }
    true
}

// Whether this is a setting's name: one of the list, or a register's, as `x6`.
fn is_setting(name: &str) -> bool {
    match name.strip_prefix("x") {
        Some(register) => is_number(register),
        None => SETTINGS.iter().any(|setting| *setting == name),
    }
}

fn are_numbers(numbers: &str) -> bool {
    numbers.split(',').all(|number| is_number(number))
}

fn are_options(texts: &Book, left: &str) -> bool {
    match left.split_once(": ") {
        Some((options, text)) => are_settings(options) && texts.is_text(text),
        None => texts.is_text(left),
    }
}
