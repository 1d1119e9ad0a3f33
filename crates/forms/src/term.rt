// Types and places in prefix order: a reader goes past one, and meets its variables.
ghost use Rattle.std.specs.Prelude.{[], ◌∷◌};
ghost use Rattle.typing.specs.Heads.{type, place};
ghost use Rattle.forms.specs.Skips.{Shorter, Skipped, TookToken, skip_terms};

use crate::reader::{Reader, Sort};
use syntax::fault::Fault;
use typing::head::{Head, Token};

// How many places a record has.
const LABELS: usize = 4;

impl Reader<'_> {
    // The token of the term at the front.
    fn token(&mut self) -> Result<Token, Fault>
        ensures { TookToken self.old self.new result }
    {
        Ok(Token::from(self.number()?))
    }

    // Goes past the type at the front.
    #[cycle(reads_term)]
    pub(crate) fn read_type(&mut self) -> Result<(), Fault>
        ensures value { Skipped (skip_terms (type ∷ []) self.old.0 self.old.1) self.new result }
        ensures shorter { Shorter self.old self.new result }
    {
        match self.token()? {
            Token::Variable(k) => self.meet(Sort::Type, k),
            Token::Head(Head::Num) => Ok(()),
            Token::Head(Head::Fun) => {
                self.read_type()?;
                self.read_type()
            }
            Token::Head(Head::Rec) => {
                for _label in 0..LABELS {
                    self.read_place()?;
                }
                Ok(())
            }
            Token::Head(Head::Absent | Head::Present) => Err(Fault::Unlawful),
        }
    }

    // Goes past the place at the front.
    #[cycle(reads_term)]
    fn read_place(&mut self) -> Result<(), Fault>
        ensures value { Skipped (skip_terms (place ∷ []) self.old.0 self.old.1) self.new result }
        ensures shorter { Shorter self.old self.new result }
    {
        match self.token()? {
            Token::Variable(k) => self.meet(Sort::Place, k),
            Token::Head(Head::Absent) => Ok(()),
            Token::Head(Head::Present) => self.read_type(),
            Token::Head(Head::Num | Head::Fun | Head::Rec) => Err(Fault::Unlawful),
        }
    }
}
