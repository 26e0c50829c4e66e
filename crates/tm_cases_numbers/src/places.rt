// Addresses, placement, draws and choices.
ghost use Rattle.std.specs.Prelude.{◌≡◌, ◌≤◌, ◌<◌, IfSome, Some, IsTrue};
ghost use Rattle.tm_base.specs.Limits.{image_version, most_harts, is_line_size};
ghost use Rattle.tm_place.specs.Limits.{IsWindowAt};
ghost use Rattle.tm_table.specs.Row.{IsWidth};
ghost use Rattle.tm_plan_map.specs.declared.windows.Window.{Window as Held};

use tm_base::{
    Bytes, CASE_ROOM, HART_ROOM, IMAGE_VERSION, MOST_PASSES, NoMemory, WINDOW_BYTES, WINDOWS,
    most_harts, push_decimal, push_hex,
};
use tm_cases_book::{number, small, words_of};
use tm_place::{Placement, choice, draw, may_load, may_store, part_size};
use tm_plan_map::{
    Kind2, Window, flag_addr, private_base, save_addr, table_addr, verdict_addr, window_base,
};

/// An address by its name and numbers.
pub fn address(rest: &str, out: &mut Bytes) -> Result<(), NoMemory> {
    let [name, first, second, ..] = words_of(rest);
    match address_of(name, small(first), small(second)) {
        Some(addr) => push_hex(out, addr, 16),
        None => out.append(b"no such address"),
    }
}

fn address_of(name: &str, first: u32, second: u32) -> Option<u64> {
    match name {
        "window" if first < WINDOWS => Some(window_base(first)),
        "flag" if first < HART_ROOM => Some(flag_addr(first)),
        "private" if first < HART_ROOM => Some(private_base(first)),
        "verdict" if first < CASE_ROOM && second < HART_ROOM => Some(verdict_addr(first, second)),
        "save" if first < HART_ROOM && second < MOST_PASSES => Some(save_addr(first, second)),
        "table" if first >= 1 && first <= HART_ROOM && second < CASE_ROOM => {
            Some(table_addr(first, second))
        }
        _ => None,
    }
}

/// A choice by a word among so many.
pub fn choose(rest: &str, out: &mut Bytes) -> Result<(), NoMemory> {
    let [word, n, ..] = words_of(rest);
    let n = small(n);
    if n == 0 {
        return out.append(b"nothing to choose");
    }
    push_decimal(out, u64::from(choice(small(word), n)))
}

/// A word that a seed draws for a slot of a hart in a case.
pub fn drawn(rest: &str, out: &mut Bytes) -> Result<(), NoMemory> {
    let [seed, c, h, i, d, ..] = words_of(rest);
    let word = draw(
        number(seed),
        small(c) % 64,
        small(h) % 64,
        small(i) % 1024,
        small(d) % 16,
    );
    push_hex(out, u64::from(word), 8)
}

fn line_size(word: &str) -> Option<u32>
    ensures { IfSome result (λ n. IsTrue (is_line_size n)) }
{
    match small(word) {
        32 => Some(32),
        64 => Some(64),
        128 => Some(128),
        _ => None,
    }
}

/// The part of a line for so many harts.
pub fn part(rest: &str, out: &mut Bytes) -> Result<(), NoMemory> {
    let [line, harts, ..] = words_of(rest);
    let Some(line) = line_size(line) else {
        return out.append(b"no such line");
    };
    let harts = small(harts);
    if harts < 1 {
        return out.append(b"no harts");
    }
    if harts > HART_ROOM {
        return out.append(b"too many harts");
    }
    push_decimal(out, u64::from(part_size(line, harts)))
}

/// The kind and the lines of a word such as `own5`.
fn kind_of(word: &str) -> Option<(Kind2, u32)> {
    match word.get(..1) {
        Some("t") => Some((Kind2::True, small(word.get(4..).unwrap_or("")))),
        Some("f") => Some((Kind2::False, small(word.get(5..).unwrap_or("")))),
        Some("o") => Some((Kind2::Own, small(word.get(3..).unwrap_or("")))),
        _ => None,
    }
}

/// The window of a word, where it may stand there and has a line for each hart.
fn window(harts: u32, line: u32, number: u32, word: &str) -> Option<Window>
    requires { number < WINDOWS }
    ensures { (v : Held) → result ≡ Some v → IsWindowAt harts line number v }
{
    let Some((kind, lines)) = kind_of(word) else {
        return None;
    };
    if lines < 1 {
        return None;
    }
    if lines < harts {
        return None;
    }
    if u64::from(lines) * u64::from(line) > WINDOW_BYTES as u64 {
        return None;
    }
    Some(Window {
        number,
        kind,
        lines,
    })
}

fn placement(harts: u32, line: u32, w0: &str, w1: &str, w2: &str) -> Placement
    requires some { 1 ≤ harts }
    requires few { harts ≤ most_harts image_version }
    requires line { IsTrue (is_line_size line) }
    ensures { result.harts ≡ harts }
{
    Placement {
        harts,
        line,
        part: part_size(line, harts),
        shape: [
            window(harts, line, 0, w0),
            window(harts, line, 1, w1),
            window(harts, line, 2, w2),
        ],
        hot: [0; 3],
    }
}

/// Whether a hart may store and load: `HARTS LINE W0 W1 W2 HART ADDR WIDTH`, with windows such as `true1` and `own5`,
/// or `-`.
pub fn may(rest: &str, out: &mut Bytes) -> Result<(), NoMemory> {
    let [harts, line, w0, w1, w2, h, addr, width] = words_of(rest);
    let harts = small(harts);
    let Some(line) = line_size(line) else {
        return out.append(b"no such line");
    };
    if harts < 1 {
        return out.append(b"no harts");
    }
    if harts > most_harts(IMAGE_VERSION) {
        return out.append(b"too many harts");
    }
    let p = placement(harts, line, w0, w1, w2);
    put_rights(&p, small(h), number(addr), width, out)
}

fn width_of(word: &str) -> Option<u8>
    ensures { IfSome result IsWidth }
{
    match small(word) {
        1 => Some(1),
        2 => Some(2),
        4 => Some(4),
        8 => Some(8),
        _ => None,
    }
}

fn put_rights(
    p: &Placement,
    h: u32,
    addr: u64,
    width: &str,
    out: &mut Bytes,
) -> Result<(), NoMemory> {
    if h >= p.harts {
        return out.append(b"no such hart");
    }
    let Some(width) = width_of(width) else {
        return out.append(b"no such width");
    };
    match (may_store(p, h, addr, width), may_load(p, h, addr, width)) {
        (true, true) => out.append(b"store and load"),
        (true, false) => out.append(b"store"),
        (false, true) => out.append(b"load"),
        (false, false) => out.append(b"neither"),
    }
}
