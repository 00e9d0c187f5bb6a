// A FORMAT's words, one after the other. Nothing is tested here that the check of an object has settled.
#![tactic(auto)]

ghost use Rattle.object_contents.specs.Book.{book_of};
ghost use Rattle.run_formats.specs.Scan.{Scanning, Says};

use object_contents::Object;

// A word's top byte. Each stands once, at its arm of the match that makes the enum: an enum of the numbers besides would be no plainer.
const NUMBER: u32 = 1;

const SKIP: u32 = 2;

const TEXT: u32 = 3;

const END: u32 = 5;

// A number's width, columns passed over, a character, or the record's end.
#[derive(Drop)]
pub enum Field {
    Number(usize),
    Skip(usize),
    Text(u8),
    Slash,
}

// A field, or the FORMAT's end with the word where a new scan begins.
#[derive(Drop)]
pub enum Word {
    Of(Field),
    End(usize),
}

pub fn word_at(o: &Object, word: usize) -> Word
    requires { Scanning (book_of o.now).formats word }
    ensures { Says (book_of o.now).formats word result }
{
    let w = object_words::load(o.bytes, o.layout.formats + 4 * word);
    let n = object_words::operand(w) as usize;
    match object_words::operation(w) {
        NUMBER => Word::Of(Field::Number(n)),
        SKIP => Word::Of(Field::Skip(n)),
        TEXT => Word::Of(Field::Text(n as u8)),
        END => Word::End(n),
        _ => Word::Of(Field::Slash),
    }
}
