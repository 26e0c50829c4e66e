// How the words of a line are read.
ghost use Rattle.std.specs.Prelude.{◌≡◌};
ghost use Rattle.tm_cases_book.specs.Texts.{number_in, small_in};

use std::alloc::Global;
use tm_base::{List, NoMemory, read_number};

/// The first eight words of a line, empty where there are fewer.
pub fn words_of(line: &str) -> [&str; 8] {
    let mut words = [""; 8];
    for (at, word) in line.split(' ').enumerate() {
        if at < 8 {
            words[at] = word;
        }
    }
    words
}

/// The number of a word, 0 where it isn't one.
pub fn number(word: &str) -> u64
    ensures { result ≡ number_in word.now }
{
    read_number(word.as_bytes()).unwrap_or(0)
}

/// The number of a word below 2^32, 0 where it isn't one.
pub fn small(word: &str) -> u32
    ensures { result ≡ small_in word.now }
{
    let value = number(word);
    if value < 0x1_0000_0000 {
        value as u32
    } else {
        0
    }
}

/// The numbers behind an option such as `desk=1,2`, none where it isn't there.
pub fn calls(alloc: Global, options: &str, name: &str) -> Result<List<u64>, NoMemory> {
    let mut list = List::new(alloc);
    for number in option(options, name).split(',') {
        list.push(u64::from(small(number)))?;
    }
    Ok(list)
}

/// What stands behind an option's `=`, empty where it isn't there.
pub fn option<'a>(options: &'a str, name: &str) -> &'a str {
    for word in options.split(' ') {
        if let Some((key, value)) = word.split_once('=') {
            if key == name {
                return value;
            }
        }
    }
    ""
}
