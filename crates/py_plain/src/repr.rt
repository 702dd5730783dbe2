ghost use Rattle.std.specs.Prelude.{◌≡◌, ◌≤◌, ◌++◌, map, codes, string_bytes, length};
ghost use Rattle.std.specs.Fmt.{signed_decimal};
ghost use Rattle.py_strs.specs.Joining.{joined};
ghost use Rattle.py_strs.specs.Quoting.{text_repr, bytes_repr};
ghost use Rattle.py_plain.specs.Printing.{PrintsWithin, repr_of, str_of, tuple_repr};
ghost use Rattle.py_plain.specs.Putting.{Puts, separator, end_of_text};

use crate::ends::PlainEnd;
use itoa::Buffer;
use py_strs::{StrEnd, repr_bytes, repr_text};
use rp_base::{Beyond, Plain};

/// Appends the repr of a value to `out`.
///
/// `Beyond(Size)` exactly where `out` would then hold more than `most` bytes. After an error `out` is as before. Time is
/// linear in what is printed.
pub fn plain_repr(a: &Plain, most: u64, out: &mut String) -> Result<(), PlainEnd>
    ensures { PrintsWithin most (repr_of a.now) (string_bytes out.old) (string_bytes out.new) result }
{
    let start = out.len();
    match put(a, most, out) {
        Ok(()) => Ok(()),
        Err(end) => {
            out.truncate(start);
            Err(end)
        }
    }
}

/// Appends the str of a value to `out`: a text itself, and the repr of any other value.
///
/// `Beyond(Size)` exactly where `out` would then hold more than `most` bytes. After an error `out` is as before. Time is
/// linear in what is printed.
#[tactic(auto, unfolding(crate::specs::Printing::str_of))]
pub fn plain_str(a: &Plain, most: u64, out: &mut String) -> Result<(), PlainEnd>
    ensures { PrintsWithin most (str_of a.now) (string_bytes out.old) (string_bytes out.new) result }
{
    match a {
        Plain::Text(text) => put_str(text.as_str(), most, out),
        _ => plain_repr(a, most, out),
    }
}

/// As `plain_repr`, but that after an error a part may stand behind what was there.
#[cycle(printing)]
#[tactic(auto, unfolding(crate::specs::Printing::repr_of))]
fn put(a: &Plain, most: u64, out: &mut String) -> Result<(), PlainEnd>
    ensures { Puts most (repr_of a.now) (string_bytes out.old) (string_bytes out.new) result }
{
    match a {
        Plain::None => put_str("None", most, out),
        Plain::Bool(true) => put_str("True", most, out),
        Plain::Bool(false) => put_str("False", most, out),
        Plain::Int(n) => put_int(*n, most, out),
        Plain::Text(text) => put_text(text.as_str(), most, out),
        Plain::Bytes(bytes) => put_bytes(bytes.as_slice(), most, out),
        Plain::NotImpl => put_str("NotImplemented", most, out),
        Plain::Ellipsis => put_str("Ellipsis", most, out),
        Plain::Tuple(items) => put_tuple(items.as_slice(), most, out),
    }
}

#[cycle(printing)]
fn put_tuple(items: &[Plain], most: u64, out: &mut String) -> Result<(), PlainEnd>
    ensures { Puts most (tuple_repr (map repr_of items.now)) (string_bytes out.old) (string_bytes out.new) result }
{
    put_str("(", most, out)?;
    put_items(items, most, out)?;
    put_str(if items.len() == 1 { ",)" } else { ")" }, most, out)
}

#[cycle(printing)]
fn put_items(items: &[Plain], most: u64, out: &mut String) -> Result<(), PlainEnd>
    requires { length (string_bytes out.old) ≤ most }
    ensures { Puts most (joined (codes ", ") (map repr_of items.now)) (string_bytes out.old) (string_bytes out.new) result }
{
    for i in 0..items.len() {
        put_item(i, &items[i], most, out)?;
    }
    Ok(())
}

/// Item i of a tuple: behind `, `, unless it is the first.
#[cycle(printing)]
fn put_item(i: usize, item: &Plain, most: u64, out: &mut String) -> Result<(), PlainEnd>
    ensures { Puts most (separator i ++ repr_of item.now) (string_bytes out.old) (string_bytes out.new) result }
{
    if i == 0 {
        return put(item, most, out);
    }
    put_str(", ", most, out)?;
    put(item, most, out)
}

fn put_int(n: i128, most: u64, out: &mut String) -> Result<(), PlainEnd>
    ensures { Puts most (signed_decimal n) (string_bytes out.old) (string_bytes out.new) result }
{
    let mut buffer = Buffer::new();
    put_str(buffer.format(n), most, out)
}

fn put_text(text: &str, most: u64, out: &mut String) -> Result<(), PlainEnd>
    ensures { Puts most (text_repr text.now) (string_bytes out.old) (string_bytes out.new) result }
{
    match repr_text(text, most, out) {
        Ok(()) => Ok(()),
        Err(end) => Err(end_of_text(end)),
    }
}

fn put_bytes(bytes: &[u8], most: u64, out: &mut String) -> Result<(), PlainEnd>
    ensures { Puts most (bytes_repr bytes.now) (string_bytes out.old) (string_bytes out.new) result }
{
    match repr_bytes(bytes, most, out) {
        Ok(()) => Ok(()),
        Err(end) => Err(end_of_text(end)),
    }
}

fn end_of_text(end: StrEnd) -> PlainEnd
    ensures { result ≡ end_of_text end }
{
    match end {
        StrEnd::NoMemory => PlainEnd::NoMemory,
        StrEnd::Size | StrEnd::EmptySep => PlainEnd::Beyond(Beyond::Size),
    }
}

/// Appends the text itself. `Beyond(Size)` exactly where `out` would then hold more than `most` bytes; after an error
/// `out` is as before.
fn put_str(text: &str, most: u64, out: &mut String) -> Result<(), PlainEnd>
    ensures within { PrintsWithin most text.now (string_bytes out.old) (string_bytes out.new) result }
    ensures puts { Puts most text.now (string_bytes out.old) (string_bytes out.new) result }
{
    match most.checked_sub(out.len() as u64) {
        Some(room) if text.len() as u64 <= room => {
            out.push_str(text)?;
            Ok(())
        }
        _ => Err(PlainEnd::Beyond(Beyond::Size)),
    }
}
