//! Items as C gets them: of one word, or of up to four.
ghost use Rattle.std.specs.Prelude.{◌≡◌};
ghost use Rattle.cc_passes.specs.Items.{Form, one_word, all_words};

use cc_model::Item;
use cc_runs::words_in;

/// A form of items.
pub trait ItemForm: Drop {
    ghost form: { Form Self };

    /// How many words of a body it has room for.
    fn room() -> u32
        ensures { result ≡ form.room };

    /// No item.
    fn none() -> Self
        ensures { result ≡ form.none };

    /// An item of the queue.
    fn of(item: Item) -> Self
        ensures { result ≡ form.of item };
}

/// An item with a body of one word.
#[repr(C)]
#[derive(Clone, Copy)]
pub struct TakenItem {
    pub place: u64,
    pub sender: u32,
    pub number: u32,
    pub body: u64,
}

impl ItemForm for TakenItem {
    ghost form = { one_word };

    fn room() -> u32 {
        1
    }

    fn none() -> TakenItem {
        TakenItem {
            place: 0,
            sender: 0,
            number: 0,
            body: 0,
        }
    }

    fn of(item: Item) -> TakenItem {
        TakenItem {
            place: item.place,
            sender: item.sender,
            number: item.number,
            body: words_in(item.body).first,
        }
    }
}

/// An item with all words of its body, and 0 after them.
#[repr(C)]
#[derive(Clone, Copy)]
pub struct TakenWords {
    pub place: u64,
    pub sender: u32,
    pub number: u32,
    pub count: usize,
    pub words: [u64; 4],
}

impl ItemForm for TakenWords {
    ghost form = { all_words };

    fn room() -> u32 {
        4
    }

    fn none() -> TakenWords {
        TakenWords {
            place: 0,
            sender: 0,
            number: 0,
            count: 0,
            words: [0, 0, 0, 0],
        }
    }

    fn of(item: Item) -> TakenWords {
        let words = words_in(item.body);
        TakenWords {
            place: item.place,
            sender: item.sender,
            number: item.number,
            count: item.body.words().len(),
            words: [words.first, words.second, words.third, words.fourth],
        }
    }
}
