// The words of a line, one after another.
ghost use Rattle.std.specs.Prelude.{◌≡◌, [], ◌∷◌, MatchResult, ◌≢◌};
ghost use Rattle.std.specs.Str.{all_ascii_digits};
ghost use Rattle.words.specs.declared.wrong.Wrong.TheVariants.{MissingWord, UnexpectedWord};
ghost use Rattle.words.specs.Words.{is_numeral, number_of, id_of, words_of, left, with, id_from, number_from, option_from};

use crate::cut::cut;
use crate::wrong::Wrong;

// Decimal digits without a leading zero.
fn is_numeral(word: &[u8]) -> bool
    ensures { result ≡ is_numeral word.now }
{
    match word {
        [] | [b'0', _, ..] => false,
        _ => word.iter().all(u8::is_ascii_digit),
    }
}

#[tactic(auto, using(crate::proofs::Numbers::not_numeral))]
fn number_of(word: &[u8]) -> Option<u32>
    ensures { result ≡ number_of word.now }
{
    if !is_numeral(word) {
        return None;
    }
    let mut value: u32 = 0;
    for digit in word {
        value = value
            .checked_mul(10)?
            .checked_add(u32::from(*digit - b'0'))?;
    }
    Some(value)
}

fn id_of(word: &[u8]) -> Option<u16>
    ensures { result ≡ id_of word.now }
{
    u16::try_from(number_of(word)?).ok().filter(|id| *id != 0)
}

// What is left of a line, or `None` after its last word.
// No `Model`, since a `Copy` struct with a lifetime can have none: contracts see the words by `left`, through the public field.
#[derive(Clone, Copy, Debug, PartialEq, Eq)]
pub struct Words<'a> {
    pub rest: Option<&'a [u8]>,
}

impl<'a> Words<'a> {
    // All the words of a line.
    pub fn new(line: &'a [u8]) -> Words<'a>
        ensures { left result ≡ words_of line.now }
    {
        Words { rest: Some(line) }
    }

    pub fn next(&mut self) -> Result<&'a [u8], Wrong>
        ensures { MatchResult result (λ word. left self.old ≡ word.now ∷ left self.new) (λ e. (left self.old ≡ []) × (e ≡ MissingWord)) }
    {
        let text = self.rest.ok_or(Wrong::MissingWord)?;
        let (word, rest) = cut(text, b' ');
        self.rest = rest;
        Ok(word)
    }

    // The number of a card or a lock. (Inlined, since most of what a line of a script costs is this.)
    #[inline]
    pub fn id(&mut self) -> Result<u16, Wrong>
        ensures { with result (left self.new) ≡ id_from (left self.old) }
    {
        let word = self.next()?;
        id_of(word).ok_or(Wrong::NotAnId)
    }

    // The number of a day or a list. (One function for this and `id` would take the reader and the fault, and be longer than both.)
    pub fn number(&mut self) -> Result<u32, Wrong>
        ensures { with result (left self.new) ≡ number_from (left self.old) }
    {
        let word = self.next()?;
        number_of(word).ok_or(Wrong::NotANumber)
    }

    // The number after the word `key`, if that is the next word.
    pub fn option(&mut self, key: &[u8]) -> Result<Option<u32>, Wrong>
        ensures { with result (left self.new) ≡ option_from key.now (left self.old) }
    {
        let mut ahead = *self;
        match ahead.next() {
            Ok(word) if word == key => {
                *self = ahead;
                Ok(Some(self.number()?))
            }
            _ => Ok(None),
        }
    }

    #[tactic(auto, using(crate::proofs::Cuts::pieces_some))]
    pub fn end(&self) -> Result<(), Wrong>
        ensures { MatchResult result (λ _. left self.now ≡ []) (λ e. (e ≡ UnexpectedWord) × (left self.now ≢ [])) }
    {
        match self.rest {
            None => Ok(()),
            Some(_) => Err(Wrong::UnexpectedWord),
        }
    }
}
