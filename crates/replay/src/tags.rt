// The tags of lines.

// What a line does.
#[derive(Clone, Copy)]
pub enum Tag {
    Hash,
    Rota,
    Change(Change),
    Walk,
    Ask(Ask),
    Call(Call),
    Look(Look),
}

// It changes the image that is read.
#[derive(Clone, Copy)]
pub enum Change {
    Zero,
    Edit,
    Size,
}

// It stores an answer of the reader.
#[derive(Clone, Copy)]
pub enum Ask {
    Open,
    Fail,
    Find,
    Miss,
    Name,
    Void,
    Home,
    Away,
    Left,
    Item,
    Ends,
}

// It calls the writer.
#[derive(Clone, Copy)]
pub enum Call {
    New2,
    New1,
    Puts,
    Full,
    Clos,
}

// It is about the image that close made last.
#[derive(Clone, Copy)]
pub enum Look {
    Sums,
    Part,
    Nils,
    Last,
}

impl Tag {
    // The tag that a line's first word is.
    pub(super) fn parse(word: &[u8]) -> Option<Tag> {
        Some(match word {
            b"hash" => Tag::Hash,
            b"rota" => Tag::Rota,
            b"zero" => Tag::Change(Change::Zero),
            b"edit" => Tag::Change(Change::Edit),
            b"size" => Tag::Change(Change::Size),
            b"walk" => Tag::Walk,
            b"open" => Tag::Ask(Ask::Open),
            b"fail" => Tag::Ask(Ask::Fail),
            b"find" => Tag::Ask(Ask::Find),
            b"miss" => Tag::Ask(Ask::Miss),
            b"name" => Tag::Ask(Ask::Name),
            b"void" => Tag::Ask(Ask::Void),
            b"home" => Tag::Ask(Ask::Home),
            b"away" => Tag::Ask(Ask::Away),
            b"left" => Tag::Ask(Ask::Left),
            b"item" => Tag::Ask(Ask::Item),
            b"ends" => Tag::Ask(Ask::Ends),
            b"new2" => Tag::Call(Call::New2),
            b"new1" => Tag::Call(Call::New1),
            b"puts" => Tag::Call(Call::Puts),
            b"full" => Tag::Call(Call::Full),
            b"clos" => Tag::Call(Call::Clos),
            b"sums" => Tag::Look(Look::Sums),
            b"part" => Tag::Look(Look::Part),
            b"nils" => Tag::Look(Look::Nils),
            b"last" => Tag::Look(Look::Last),
            _ => return None,
        })
    }
}
