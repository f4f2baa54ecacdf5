//! The tags of the External Term Format that are read, by their names in the Erlang documentation, and what follows
//! each of them.

ghost use Rattle.std.specs.Prelude.{◌≡◌};
ghost use Rattle.pg_term_io.specs.Tags.{tag_of, list_tag, tuple_size, kind_of_leaf, kind_of_tag};

use crate::kind::Kind;

pub const NEW_PID_EXT: u8 = 88;

pub const NEWER_REFERENCE_EXT: u8 = 90;

pub const SMALL_INTEGER_EXT: u8 = 97;

pub const INTEGER_EXT: u8 = 98;

pub const ATOM_EXT: u8 = 100;

pub const REFERENCE_EXT: u8 = 101;

pub const PID_EXT: u8 = 103;

pub const SMALL_TUPLE_EXT: u8 = 104;

pub const LARGE_TUPLE_EXT: u8 = 105;

pub const NIL_EXT: u8 = 106;

pub const STRING_EXT: u8 = 107;

pub const LIST_EXT: u8 = 108;

pub const BINARY_EXT: u8 = 109;

pub const SMALL_BIG_EXT: u8 = 110;

pub const NEW_REFERENCE_EXT: u8 = 114;

pub const SMALL_ATOM_EXT: u8 = 115;

pub const ATOM_UTF8_EXT: u8 = 118;

pub const SMALL_ATOM_UTF8_EXT: u8 = 119;

/// Whether a length takes one byte, or more: two bytes that of an atom, four that of a tuple.
#[derive(Clone, Copy)]
pub(crate) enum Size {
    /// One byte.
    Small,
    /// Two bytes of an atom, four of a tuple.
    Large,
}

/// How the characters of an atom are written.
#[derive(Clone, Copy)]
pub(crate) enum Encoding {
    /// In UTF-8.
    Utf8,
    /// In Latin-1, each a byte.
    Latin,
}

/// How many bytes the creation of a pid or a reference takes.
#[derive(Clone, Copy)]
pub(crate) enum Creation {
    /// One byte.
    Byte,
    /// Four bytes.
    Word,
}

/// What follows the tag of a term that holds no terms.
#[derive(Clone, Copy)]
pub(crate) enum LeafTag {
    /// An integer of one byte.
    SmallInteger,
    /// An integer of four bytes, with a sign.
    Integer,
    /// How many digits, a sign, and the digits.
    SmallBig,
    /// The length of a text, and the text.
    Atom(Size, Encoding),
    /// An atom, four bytes, four bytes, and a creation.
    Pid(Creation),
    /// An atom, four bytes, and a creation of one byte.
    OldReference,
    /// How many words, an atom, a creation, and the words.
    Reference(Creation),
    /// A length of four bytes, and so many bytes.
    Binary,
}

/// What follows the tag of a list.
#[derive(Clone, Copy)]
pub(crate) enum ListTag {
    /// Nothing: it has no elements.
    Nil,
    /// A length of two bytes, and bytes, each of them an element.
    String,
    /// How many elements, in four bytes, the elements, and the tail.
    List,
}

/// What follows a tag.
#[derive(Clone, Copy)]
pub(crate) enum Tag {
    /// How many elements, and the elements.
    Tuple(Size),
    /// The elements, up to the end of the list.
    List(ListTag),
    /// A term that holds no terms.
    Leaf(LeafTag),
}

impl Tag {
    /// What follows this byte. `None`: it is no tag that is read.
    #[inline]
    pub(crate) fn of(byte: u8) -> Option<Tag>
        ensures { result ≡ tag_of byte }
    {
        let tag = match byte {
            SMALL_INTEGER_EXT => Tag::Leaf(LeafTag::SmallInteger),
            INTEGER_EXT => Tag::Leaf(LeafTag::Integer),
            SMALL_BIG_EXT => Tag::Leaf(LeafTag::SmallBig),
            SMALL_ATOM_UTF8_EXT => Tag::Leaf(LeafTag::Atom(Size::Small, Encoding::Utf8)),
            ATOM_UTF8_EXT => Tag::Leaf(LeafTag::Atom(Size::Large, Encoding::Utf8)),
            SMALL_ATOM_EXT => Tag::Leaf(LeafTag::Atom(Size::Small, Encoding::Latin)),
            ATOM_EXT => Tag::Leaf(LeafTag::Atom(Size::Large, Encoding::Latin)),
            PID_EXT => Tag::Leaf(LeafTag::Pid(Creation::Byte)),
            NEW_PID_EXT => Tag::Leaf(LeafTag::Pid(Creation::Word)),
            REFERENCE_EXT => Tag::Leaf(LeafTag::OldReference),
            NEW_REFERENCE_EXT => Tag::Leaf(LeafTag::Reference(Creation::Byte)),
            NEWER_REFERENCE_EXT => Tag::Leaf(LeafTag::Reference(Creation::Word)),
            BINARY_EXT => Tag::Leaf(LeafTag::Binary),
            SMALL_TUPLE_EXT => Tag::Tuple(Size::Small),
            LARGE_TUPLE_EXT => Tag::Tuple(Size::Large),
            NIL_EXT => Tag::List(ListTag::Nil),
            STRING_EXT => Tag::List(ListTag::String),
            LIST_EXT => Tag::List(ListTag::List),
            _ => return None,
        };
        Some(tag)
    }

    /// How long the arity of a tuple is, if the byte is the tag of one.
    pub(crate) fn of_tuple(byte: u8) -> Option<Size>
        ensures { result ≡ tuple_size (tag_of byte) }
    {
        match Tag::of(byte) {
            Some(Tag::Tuple(size)) => Some(size),
            _ => None,
        }
    }

    /// What follows the tag of a list, if the byte is one.
    pub(crate) fn of_list(byte: u8) -> Option<ListTag>
        ensures { result ≡ list_tag (tag_of byte) }
    {
        match Tag::of(byte) {
            Some(Tag::List(tag)) => Some(tag),
            _ => None,
        }
    }

    /// The kind of term that follows it.
    pub(crate) fn kind(self) -> Kind
        ensures { result ≡ kind_of_tag self }
    {
        match self {
            Tag::Tuple(_) => Kind::Tuple,
            Tag::List(_) => Kind::List,
            Tag::Leaf(leaf) => leaf.kind(),
        }
    }
}

impl LeafTag {
    fn kind(self) -> Kind
        ensures { result ≡ kind_of_leaf self }
    {
        match self {
            LeafTag::SmallInteger | LeafTag::Integer | LeafTag::SmallBig => Kind::Integer,
            LeafTag::Atom(_, _) => Kind::Atom,
            LeafTag::OldReference | LeafTag::Reference(_) => Kind::Reference,
            LeafTag::Pid(_) => Kind::Pid,
            LeafTag::Binary => Kind::Binary,
        }
    }
}
