//! The body of an item: one to four words.
ghost use Rattle.std.specs.Prelude.{◌≡◌, IfSome, IfNone, length, ◌<◌, ◌⊎◌, [], ◌∷◌};
ghost use Rattle.cc_model.specs.Body.{words_of, body_of, IsBody};

/// The value that a send carries: one to four words, with no memory of its own.
#[derive(Clone, Copy, Debug, PartialEq, Eq)]
pub struct Body {
    words: Words,
}

#[derive(Clone, Copy, Debug, PartialEq, Eq)]
enum Words {
    One([u64; 1]),
    Two([u64; 2]),
    Three([u64; 3]),
    Four([u64; 4]),
}

impl Body {
    /// The body of one word.
    #[inline(always)]
    pub fn one(word: u64) -> Body
        ensures { result ≡ body_of (word ∷ []) }
    {
        Body {
            words: Words::One([word]),
        }
    }

    /// The body of two words.
    #[inline(always)]
    pub fn two(first: u64, second: u64) -> Body
        ensures { result ≡ body_of (first ∷ second ∷ []) }
    {
        Body {
            words: Words::Two([first, second]),
        }
    }

    /// The body of three words.
    #[inline(always)]
    pub fn three(first: u64, second: u64, third: u64) -> Body
        ensures { result ≡ body_of (first ∷ second ∷ third ∷ []) }
    {
        Body {
            words: Words::Three([first, second, third]),
        }
    }

    /// The body of four words.
    #[inline(always)]
    pub fn four(first: u64, second: u64, third: u64, fourth: u64) -> Body
        ensures { result ≡ body_of (first ∷ second ∷ third ∷ fourth ∷ []) }
    {
        Body {
            words: Words::Four([first, second, third, fourth]),
        }
    }

    /// The body of these words; `None` unless there are one to four.
    pub fn new(words: &[u64]) -> Option<Body>
        ensures some { IfSome result (λ b. (b ≡ body_of words.now) × (words_of b ≡ words.now) × IsBody b) }
        ensures none { IfNone result ((length words.now ≡ 0) ⊎ (4 < length words.now)) }
    {
        match words {
            [a] => Some(Body::one(*a)),
            [a, b] => Some(Body::two(*a, *b)),
            [a, b, c] => Some(Body::three(*a, *b, *c)),
            [a, b, c, d] => Some(Body::four(*a, *b, *c, *d)),
            _ => None,
        }
    }

    /// Its words.
    pub fn words(&self) -> &[u64]
        ensures words { result.now ≡ words_of self.now }
        ensures body { IsBody self.now }
    {
        match &self.words {
            Words::One(words) => words,
            Words::Two(words) => words,
            Words::Three(words) => words,
            Words::Four(words) => words,
        }
    }
}
