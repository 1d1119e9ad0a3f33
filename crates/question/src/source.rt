// The readings that a line can ask, by their words.
ghost use Rattle.std.specs.Prelude.{◌≡◌};
ghost use Rattle.syntax.specs.Conversions.{Finds};
ghost use Rattle.question.specs.Questions.{source_word};
ghost use Rattle.question.specs.declared.source.Source.{Source};

use syntax::fault::Fault;

#[derive(Clone, Copy, Debug, PartialEq, Eq)]
pub enum Source {
    Names,
}

// The reading that has a word, if one has.
impl TryFrom<&[u8]> for Source {
    type Error = Fault;

    ghost try_from_gives = { λ word r. Finds (λ s. source_word s ≡ word.now) r };

    fn try_from(word: &[u8]) -> Result<Source, Fault> {
        match word {
            b"names" => Ok(Source::Names),
            _ => Err(Fault::Misfit),
        }
    }
}
