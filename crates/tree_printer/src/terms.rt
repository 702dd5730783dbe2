use py_ast::Name;
use rp_base::{Plain, Text};
use std::alloc::AllocError;

/// A list of numbers.
pub fn push_numbers(out: &mut String, numbers: &[u32]) -> Result<(), AllocError> {
    if numbers.is_empty() {
        return out.push_str("[]");
    }
    out.push_str("(")?;
    for number in numbers {
        write!(out, "{number} ∷ ")?;
    }
    out.push_str("[])")
}

/// Whether a text may stand between quotes.
fn is_simple(text: &[u8]) -> bool {
    for &byte in text {
        if byte < b' ' || byte > b'~' || byte == b'"' || byte == b'\\' {
            return false;
        }
    }
    true
}

/// A list of bytes: between quotes where it may be.
pub fn push_bytes(out: &mut String, bytes: &[u8]) -> Result<(), AllocError> {
    if bytes.is_empty() {
        return out.push_str("[]");
    }
    out.push_str("(")?;
    for byte in bytes {
        write!(out, "{byte} ∷ ")?;
    }
    out.push_str("[])")
}

pub fn push_text(out: &mut String, text: &str) -> Result<(), AllocError> {
    if text.is_empty() || !is_simple(text.as_bytes()) {
        push_bytes(out, text.as_bytes())
    } else {
        write!(out, "(codes \"{text}\")")
    }
}

pub fn push_texts(out: &mut String, texts: &[Text]) -> Result<(), AllocError> {
    if texts.is_empty() {
        return out.push_str("[]");
    }
    out.push_str("(")?;
    for text in texts {
        push_text(out, text.as_str())?;
        out.push_str(" ∷ ")?;
    }
    out.push_str("[])")
}

pub fn push_name(out: &mut String, name: &Name) -> Result<(), AllocError> {
    out.push_str("(record { text = ")?;
    push_text(out, name.text.as_str())?;
    let line = name.line;
    write!(out, "; line = {line} }})")
}

pub fn push_names(out: &mut String, names: &[Name]) -> Result<(), AllocError> {
    if names.is_empty() {
        return out.push_str("[]");
    }
    out.push_str("(")?;
    for name in names {
        push_name(out, name)?;
        out.push_str(" ∷ ")?;
    }
    out.push_str("[])")
}

pub fn push_number_or_none(out: &mut String, number: Option<u32>) -> Result<(), AllocError> {
    match number {
        Some(number) => write!(out, "(Some {number})"),
        None => out.push_str("None"),
    }
}

pub fn push_name_or_none(out: &mut String, name: &Option<Name>) -> Result<(), AllocError> {
    match name {
        Some(name) => {
            out.push_str("(Some ")?;
            push_name(out, name)?;
            out.push_str(")")
        }
        None => out.push_str("None"),
    }
}

pub fn push_bool(out: &mut String, is_true: bool) -> Result<(), AllocError> {
    out.push_str(if is_true { "true" } else { "false" })
}

/// A constant.
#[cycle(plains)]
pub fn push_plain(out: &mut String, plain: &Plain) -> Result<(), AllocError> {
    match plain {
        Plain::None => out.push_str("plain.None"),
        Plain::NotImpl => out.push_str("plain.NotImpl"),
        Plain::Ellipsis => out.push_str("plain.Ellipsis"),
        Plain::Bool(is_true) => {
            out.push_str("(plain.Bool ")?;
            push_bool(out, *is_true)?;
            out.push_str(")")
        }
        Plain::Int(n) => {
            if *n >= 0 {
                write!(out, "(plain.Int (pos {n}))")
            } else {
                let below = -1 - *n;
                write!(out, "(plain.Int (negsuc {below}))")
            }
        }
        Plain::Text(text) => {
            out.push_str("(plain.Text ")?;
            push_text(out, text.as_str())?;
            out.push_str(")")
        }
        Plain::Bytes(bytes) => {
            out.push_str("(plain.Bytes ")?;
            push_bytes(out, bytes.as_slice())?;
            out.push_str(")")
        }
        Plain::Tuple(items) => {
            out.push_str("(plain.Tuple (")?;
            push_plains(out, items.as_slice())?;
            out.push_str("[]))")
        }
    }
}

#[cycle(plains)]
fn push_plains(out: &mut String, plains: &[Plain]) -> Result<(), AllocError> {
    for plain in plains {
        push_plain(out, plain)?;
        out.push_str(" ∷ ")?;
    }
    Ok(())
}
