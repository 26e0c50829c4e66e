// Tokens, topologies and templates.
use std::alloc::Global;
use tm_base::{Bytes, NoMemory, push_decimal, push_pos};
use tm_cases_book::{State, put, put_text};
use tm_lex::{LexFault, Token, TokenKind, tokens};
use tm_tmpl::print_template;
use tm_tmpl_read::parse_template;
use tm_tmpl_types::{Template, TmplFault};
use tm_topo::{TopoFault, Topology, parse_topology};

/// No text of a case is longer.
pub const LONGEST: usize = 0x10_0000;

/// The tokens of a text: for each its kind, its place, and its bytes in the text.
pub fn tokens_of(state: &State, rest: &str, out: &mut Bytes) -> Result<(), NoMemory> {
    let text = state.texts.read(rest)?;
    if text.as_slice().len() > LONGEST {
        return out.append(b"too long");
    }
    match tokens(state.alloc, text.as_slice()) {
        Ok(list) => {
            for token in list.as_slice() {
                put_token(*token, out)?;
            }
            out.append(b"end")
        }
        Err(fault) => put_lex(&fault, out),
    }
}

fn put_token(token: Token, out: &mut Bytes) -> Result<(), NoMemory> {
    out.append(match token.kind {
        TokenKind::Word => b"word ",
        TokenKind::Raw => b"raw ",
        TokenKind::LineEnd => b"line end ",
    })?;
    push_pos(out, token.at)?;
    out.push(b' ')?;
    push_decimal(out, token.from)?;
    out.push(b'-')?;
    push_decimal(out, token.to)?;
    out.append(b", ")
}

fn put_lex(fault: &LexFault, out: &mut Bytes) -> Result<(), NoMemory> {
    match fault {
        LexFault::BadByte { pos, byte } => {
            out.append(b"BadByte ")?;
            push_pos(out, *pos)?;
            out.push(b' ')?;
            push_decimal(out, u64::from(*byte))
        }
        LexFault::LongWord { pos } => {
            out.append(b"LongWord ")?;
            push_pos(out, *pos)
        }
        LexFault::NoMemory => out.append(b"NoMemory"),
    }
}

/// The numbers of a topology, or its fault.
pub fn topology(state: &State, rest: &str, out: &mut Bytes) -> Result<(), NoMemory> {
    let alloc = state.alloc;
    let text = state.texts.read(rest)?;
    match parse_topology(alloc, text.as_slice()) {
        Ok(
            Topology {
                cores,
                threads,
                line,
                bias,
            },
        ) => put(
            out,
            format!(in alloc; "cores {cores} threads {threads} line {line} bias {bias}"),
        ),
        Err(fault) => put_topology(alloc, &fault, out),
    }
}

fn put_topology(alloc: Global, fault: &TopoFault, out: &mut Bytes) -> Result<(), NoMemory> {
    match fault {
        TopoFault::NotToml => out.append(b"NotToml"),
        TopoFault::UnknownKey { key } => {
            out.append(b"UnknownKey ")?;
            put_text(out, key.as_slice())
        }
        TopoFault::Missing { key } => put(out, format!(in alloc; "Missing {key}")),
        TopoFault::WrongKind { key } => put(out, format!(in alloc; "WrongKind {key}")),
        TopoFault::OutOfRange { key, value } => {
            put(out, format!(in alloc; "OutOfRange {key} {value}"))
        }
        TopoFault::TooManyHarts { product } => {
            put(out, format!(in alloc; "TooManyHarts {product}"))
        }
        TopoFault::NoMemory => out.append(b"NoMemory"),
    }
}

/// The printed form of a template and the places of its statements, or its fault.
pub fn template(state: &State, rest: &str, out: &mut Bytes) -> Result<(), NoMemory> {
    let alloc = state.alloc;
    let text = state.texts.read(rest)?;
    if text.as_slice().len() > LONGEST {
        return out.append(b"too long");
    }
    match parse_template(alloc, text.as_slice()) {
        Ok(t) => {
            let printed = print_template(alloc, &t)?;
            put_text(out, printed.as_slice())?;
            put_places(&t, out)
        }
        Err(TmplFault::Lex(fault)) => put_lex(&fault, out),
        Err(TmplFault::Early { what }) => put(out, format!(in alloc; "Early {what:?}")),
        Err(TmplFault::Expected { pos, what }) => {
            out.append(b"Expected ")?;
            push_pos(out, pos)?;
            put(out, format!(in alloc; " {what:?}"))
        }
        Err(TmplFault::NoMemory) => out.append(b"NoMemory"),
    }
}

fn put_places(t: &Template, out: &mut Bytes) -> Result<(), NoMemory> {
    out.append(b" at ")?;
    push_pos(out, t.passes_at)?;
    for window in t.windows.as_slice() {
        out.push(b' ')?;
        push_pos(out, window.at)?;
    }
    for case in t.cases.as_slice() {
        out.push(b' ')?;
        push_pos(out, case.at)?;
        for body in case.bodies.as_slice() {
            out.push(b' ')?;
            push_pos(out, body.at)?;
            for slot in body.slots.as_slice() {
                out.push(b' ')?;
                push_pos(out, slot.at)?;
            }
        }
    }
    out.append(b" end ")?;
    push_pos(out, t.end)
}
