// The heads of types and of places, and the tokens that stand for heads and variables in a form.
ghost use Rattle.std.specs.Prelude.{◌≡◌};
ghost use Rattle.typing.specs.Heads.{meaning_of, token_of};

// The token of the first variable. Those below are heads.
pub const FIRST_VARIABLE: u32 = 5;

// The number beside each is its token.
#[derive(Clone, Copy, Debug, PartialEq, Eq)]
pub enum Head {
    Num = 0,
    Fun = 1,
    Rec = 2,
    Absent = 3,
    Present = 4,
}

impl From<Head> for u32 {
    ghost from_gives = { λ head token. token ≡ token_of head };

    fn from(head: Head) -> u32 {
        head as u32
    }
}

// What a token stands for: a head, or the variable of this number.
#[derive(Clone, Copy, Debug, PartialEq, Eq)]
pub enum Token {
    Head(Head),
    Variable(u32),
}

impl From<u32> for Token {
    ghost from_gives = { λ token meaning. meaning ≡ meaning_of token };

    fn from(token: u32) -> Token {
        match token {
            0 => Token::Head(Head::Num),
            1 => Token::Head(Head::Fun),
            2 => Token::Head(Head::Rec),
            3 => Token::Head(Head::Absent),
            4 => Token::Head(Head::Present),
            _ => Token::Variable(token - FIRST_VARIABLE),
        }
    }
}
