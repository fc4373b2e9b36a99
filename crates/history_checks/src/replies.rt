// Replies that are the same.
ghost use Rattle.std.specs.Prelude.{◌≡◌, ◌↔◌, IsTrue};

use file_tree::{Name, Reply};

// Whether these are the same names.
fn are_same(names: &[Name], others: &[Name]) -> bool
    ensures { IsTrue result ↔ (names.now ≡ others.now) }
{
    if names.len() != others.len() {
        return false;
    }
    for (i, name) in names.iter().enumerate() {
        if name.bytes() != others[i].bytes() {
            return false;
        }
    }
    true
}

/// Whether two replies are the same. It compares content and names.
pub(crate) fn is_same(reply: &Reply, other: &Reply) -> bool
    ensures { IsTrue result ↔ (reply.now ≡ other.now) }
{
    match reply {
        Reply::Ok => matches!(other, Reply::Ok),
        Reply::Bytes(content) => match other {
            Reply::Bytes(more) => content.bytes() == more.bytes(),
            _ => false,
        },
        Reply::Stat(kind, size) => match other {
            Reply::Stat(other_kind, other_size) => kind == other_kind && size == other_size,
            _ => false,
        },
        Reply::Names(names) => match other {
            Reply::Names(others) => are_same(names.names(), others.names()),
            _ => false,
        },
        Reply::NotFound => matches!(other, Reply::NotFound),
        Reply::NotDir => matches!(other, Reply::NotDir),
        Reply::IsDir => matches!(other, Reply::IsDir),
        Reply::Exists => matches!(other, Reply::Exists),
        Reply::NotEmpty => matches!(other, Reply::NotEmpty),
        Reply::Inside => matches!(other, Reply::Inside),
        Reply::TooBig => matches!(other, Reply::TooBig),
        Reply::NoSpace => matches!(other, Reply::NoSpace),
    }
}
