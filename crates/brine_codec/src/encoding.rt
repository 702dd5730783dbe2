ghost use Rattle.std.specs.Prelude.{◌≡◌, ◌<◌, ◌^◌, ◌++◌, ◌∷◌, [], true, IsTrue, OnOk, OnErr, length, take};
ghost use Rattle.std.specs.List.{All, flat_map};
ghost use Rattle.brine_codec.specs.Spelling.{spelling, spellable, bytes_spelling, size_spelling, count_spelling, int_spelling};
ghost use Rattle.py_ints.specs.IntTexts.{fits};

use crate::tag::is_small;
use itoa::Buffer;
use rp_base::{NoMemory, Plain};

/// Appends the spelling of the value. It needs lengths and counts below 2^32; ints of 128 bits and texts that are UTF-8
/// have the rest. On want of memory `out` is as before. Time is linear in the spelling.
pub fn encode(v: &Plain, out: &mut Vec<u8>) -> Result<(), NoMemory>
    requires { IsTrue (spellable v.now) }
    ensures ok { OnOk result (out.new.items ≡ out.old.items ++ spelling v.now) }
    ensures err { OnErr result (out.new.items ≡ out.old.items) }
{
    let length = out.len();
    let put = put_value(v, out);
    if put.is_err() {
        out.truncate(length);
    }
    put
}

/// On want of memory, `out` may have a part of the spelling at its end.
#[cycle(writing)]
#[tactic(auto, unfolding(crate::specs::Spelling::spellable, crate::specs::Spelling::spelling))]
fn put_value(v: &Plain, out: &mut Vec<u8>) -> Result<(), NoMemory>
    requires { IsTrue (spellable v.now) }
    ensures ok { OnOk result (out.new.items ≡ out.old.items ++ spelling v.now) }
    ensures err { OnErr result (take (length out.old.items) out.new.items ≡ out.old.items) }
{
    match v {
        Plain::None => put_tag(0x00, out),
        Plain::Bool(true) => put_tag(0x03, out),
        Plain::Bool(false) => put_tag(0x04, out),
        Plain::Int(n) => put_int(*n, out),
        Plain::Text(text) => put_text(text.as_str().as_bytes(), out),
        Plain::Bytes(bytes) => put_bytes(bytes.as_slice(), out),
        Plain::NotImpl => put_tag(0x05, out),
        Plain::Ellipsis => put_tag(0x06, out),
        Plain::Tuple(items) => put_tuple(items.as_slice(), out),
    }
}

#[cycle(writing)]
fn put_tuple(items: &[Plain], out: &mut Vec<u8>) -> Result<(), NoMemory>
    requires few { length items.now < 2 ^ 32 }
    requires spelled { All (λ v. spellable v ≡ true) items.now }
    ensures ok { OnOk result (out.new.items ≡ out.old.items ++ (count_spelling (length items.now) ++ flat_map spelling items.now)) }
    ensures err { OnErr result (take (length out.old.items) out.new.items ≡ out.old.items) }
{
    put_size(items.len(), 0x02, 0x0f, out)?;
    for item in items {
        put_value(item, out)?;
    }
    Ok(())
}

fn put_tag(tag: u8, out: &mut Vec<u8>) -> Result<(), NoMemory>
    ensures ok { OnOk result (out.new.items ≡ out.old.items ++ (tag ∷ [])) }
    ensures err { OnErr result (take (length out.old.items) out.new.items ≡ out.old.items) }
{
    out.push(tag)?;
    Ok(())
}

fn put_int(n: i128, out: &mut Vec<u8>) -> Result<(), NoMemory>
    ensures ok { OnOk result (out.new.items ≡ out.old.items ++ int_spelling n) }
    ensures err { OnErr result (take (length out.old.items) out.new.items ≡ out.old.items) }
{
    if is_small(n) {
        return put_tag((n + 80) as u8, out);
    }
    let mut buffer = Buffer::new();
    let text = buffer.format(n).as_bytes();
    out.extend_from_slice(&[0x16, text.len() as u8])?;
    out.extend_from_slice(text)?;
    Ok(())
}

fn put_text(text: &[u8], out: &mut Vec<u8>) -> Result<(), NoMemory>
    requires { length text.now < 2 ^ 32 }
    ensures ok { OnOk result (out.new.items ≡ out.old.items ++ (8 ∷ bytes_spelling text.now)) }
    ensures err { OnErr result (take (length out.old.items) out.new.items ≡ out.old.items) }
{
    out.push(0x08)?;
    put_bytes(text, out)
}

fn put_bytes(bytes: &[u8], out: &mut Vec<u8>) -> Result<(), NoMemory>
    requires { length bytes.now < 2 ^ 32 }
    ensures ok { OnOk result (out.new.items ≡ out.old.items ++ bytes_spelling bytes.now) }
    ensures err { OnErr result (take (length out.old.items) out.new.items ≡ out.old.items) }
{
    put_size(bytes.len(), 0x01, 0x09, out)?;
    out.extend_from_slice(bytes)?;
    Ok(())
}

/// A length or a count, with the tag of 0 and the tag before that of 1.
fn put_size(n: usize, empty: u8, base: u8, out: &mut Vec<u8>) -> Result<(), NoMemory>
    requires few { n < 2 ^ 32 }
    requires tags { base < 32 }
    ensures ok { OnOk result (out.new.items ≡ out.old.items ++ size_spelling empty base n) }
    ensures err { OnErr result (take (length out.old.items) out.new.items ≡ out.old.items) }
{
    match n {
        0 => put_tag(empty, out),
        1..=4 => put_tag(base + n as u8, out),
        5..=255 => {
            out.extend_from_slice(&[base + 5, n as u8])?;
            Ok(())
        }
        _ => {
            let [a, b, c, d] = (n as u32).to_be_bytes();
            out.extend_from_slice(&[base + 6, a, b, c, d])?;
            Ok(())
        }
    }
}
