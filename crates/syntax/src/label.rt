// The labels of record fields.
ghost use Rattle.std.specs.Prelude.{◌≡◌};
ghost use Rattle.syntax.specs.Conversions.{Finds};
ghost use Rattle.syntax.specs.Labels.{label_code, label_word};
ghost use Rattle.syntax.specs.declared.label.Label.{Label};

use crate::fault::Fault;

// The number beside each is its code in a file.
#[derive(Clone, Copy, Debug, PartialEq, Eq)]
pub enum Label {
    Row = 0,
    Col = 1,
    Ink = 2,
    Lit = 3,
}

impl From<Label> for u32 {
    ghost from_gives = { λ label code. code ≡ label_code label };

    fn from(label: Label) -> u32 {
        label as u32
    }
}

// The label that has a code, if one has.
impl TryFrom<u32> for Label {
    type Error = Fault;

    ghost try_from_gives = { λ code r. Finds (λ l. label_code l ≡ code) r };

    fn try_from(code: u32) -> Result<Label, Fault> {
        match code {
            0 => Ok(Label::Row),
            1 => Ok(Label::Col),
            2 => Ok(Label::Ink),
            3 => Ok(Label::Lit),
            4.. => Err(Fault::Misfit),
        }
    }
}

// The label that has a word, if one has.
impl TryFrom<&[u8]> for Label {
    type Error = Fault;

    ghost try_from_gives = { λ word r. Finds (λ l. label_word l ≡ word.now) r };

    fn try_from(word: &[u8]) -> Result<Label, Fault> {
        match word {
            b"row" => Ok(Label::Row),
            b"col" => Ok(Label::Col),
            b"ink" => Ok(Label::Ink),
            b"lit" => Ok(Label::Lit),
            _ => Err(Fault::Misfit),
        }
    }
}

impl Label {
    pub fn word(self) -> &'static [u8]
        ensures { result.now ≡ label_word self }
    {
        match self {
            Label::Row => b"row",
            Label::Col => b"col",
            Label::Ink => b"ink",
            Label::Lit => b"lit",
        }
    }
}
