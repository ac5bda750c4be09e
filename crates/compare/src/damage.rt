// Damaged books: each is refused or read, and what is read is written back as it was.
use crate::chance::Chance;
use crate::made::Made;
use arrayvec::ArrayVec;
use book::{read, write};
use task::Action;

// No book is longer.
const ROOM: usize = 512;

pub(crate) type Book = ArrayVec<u8, ROOM>;

// What became of a book.
#[derive(Clone, Copy)]
pub(crate) enum Fate {
    Refused,
    ReadBack,
    Wrong,
}

// The task's book, if it is written.
pub(crate) fn book_of(made: &Made) -> Option<Book> {
    let mut book = Book::from([0; ROOM]);
    match write(&made.task, &made.table, &mut book) {
        Ok(length) => {
            book.truncate(length);
            Some(book)
        }
        Err(_) => None,
    }
}

// One byte is another, or the end is cut off, or a byte more stands there.
pub(crate) fn damaged(book: &Book, chance: &mut Chance) -> Book {
    let mut hurt = Book::new();
    // It fits: one book has the room of another.
    let _fits = hurt.try_extend_from_slice(book);
    let at = chance.below((book.len() & 1023) as u32) as usize;
    let byte = chance.below(256) as u8;
    // Eight ways of equal chance, and no kinds with names: what is drawn is only done here.
    match chance.below(8) {
        0 => hurt.truncate(at),
        1 => {
            // A full book stays as it is.
            let _fits = hurt.try_push(byte);
        }
        kind => {
            if let Some(hit) = hurt.get_mut(at) {
                *hit = match kind {
                    2 | 3 => byte & 3,
                    4 => *hit ^ 1,
                    _ => byte,
                };
            }
        }
    }
    hurt
}

// Reads the book into a table that holds this action everywhere, and writes what was read. With atoms in the action,
// a reader that leaves anything of what a place held writes another book.
pub(crate) fn reread(book: &[u8], held: Action) -> Fate {
    let mut table = [held; 64];
    let task = match read(book, &mut table) {
        Ok(task) => task,
        Err(refusal) => {
            let known = matches!(refusal.number(), 1..=12 | 21);
            let lawful = known && refusal.place <= book.len();
            return if lawful { Fate::Refused } else { Fate::Wrong };
        }
    };
    let mut again = [0; ROOM];
    match write(&task, &table, &mut again) {
        Ok(length) if again.get(0..length) == Some(book) => Fate::ReadBack,
        _ => Fate::Wrong,
    }
}
