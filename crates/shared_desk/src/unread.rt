ghost use Rattle.std.specs.Prelude.{◌≡◌, None};

use crate::desk::DeskBook;
use locked_book::DeskName;
use log_reading::Tail;
use std::marker::PhantomData;

/// What a desk's second lock holds: the part of its log that waits to be read, where a reader
/// follows it. Each desk has one.
#[derive(Drop)]
pub(crate) struct Unread {
    pub(crate) tail: Option<Tail>,
    of: PhantomData<()>,
}

impl Unread {
    // Makes that of the desk that has this book, and returns the book. Who is only lent a desk can't
    // make any.
    pub(crate) fn of<N: DeskName>(book: DeskBook<N>) -> (DeskBook<N>, Unread)
        ensures book { result.0 ≡ book }
        ensures none { result.1.tail ≡ None }
    {
        let unread = Unread {
            tail: None,
            of: PhantomData,
        };
        (book, unread)
    }
}
