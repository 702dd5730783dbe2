ghost use Rattle.std.specs.Prelude.{◌≡◌};
ghost use Rattle.brine_codec.specs.Reading.{tag_at};
ghost use Rattle.brine_codec.specs.Spelling.{is_small_int};

/// Where a length or a count stands.
#[derive(Clone, Copy)]
pub(crate) enum Size {
    /// In the tag.
    Of(u8),
    /// In the byte behind the tag.
    Byte,
    /// In the four bytes behind the tag, the highest first.
    FourBytes,
}

/// What a tag says of the bytes after it.
#[derive(Clone, Copy)]
pub(crate) enum Tag {
    None,
    Bool(bool),
    NotImpl,
    Ellipsis,
    /// An int, with no byte after it.
    Int(i128),
    /// The decimal text of an int.
    IntText(Size),
    /// A byte string, the text's UTF-8.
    Text,
    /// So many bytes.
    Bytes(Size),
    /// The spellings of so many items.
    Tuple(Size),
    /// A float, a slice, a frozen set or a complex number.
    LeftOut,
    Unknown,
}

pub(crate) fn tag_of(byte: u8) -> Tag
    ensures { result ≡ tag_at byte }
{
    match byte {
        0x00 => Tag::None,
        0x01 => Tag::Bytes(Size::Of(0)),
        0x02 => Tag::Tuple(Size::Of(0)),
        0x03 => Tag::Bool(true),
        0x04 => Tag::Bool(false),
        0x05 => Tag::NotImpl,
        0x06 => Tag::Ellipsis,
        0x08 => Tag::Text,
        0x0a..=0x0d => Tag::Bytes(Size::Of(byte - 9)),
        0x0e => Tag::Bytes(Size::Byte),
        0x0f => Tag::Bytes(Size::FourBytes),
        0x10..=0x13 => Tag::Tuple(Size::Of(byte - 15)),
        0x14 => Tag::Tuple(Size::Byte),
        0x15 => Tag::Tuple(Size::FourBytes),
        0x16 => Tag::IntText(Size::Byte),
        0x17 => Tag::IntText(Size::FourBytes),
        0x18..=0x1b => Tag::LeftOut,
        0x20..=0xef => Tag::Int(i128::from(byte) - 80),
        _ => Tag::Unknown,
    }
}

/// Whether the int has a tag of its own.
pub(crate) fn is_small(n: i128) -> bool
    ensures { result ≡ is_small_int n }
{
    n >= -48 && n <= 159
}
