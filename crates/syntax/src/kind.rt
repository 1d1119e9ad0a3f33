// The kinds of a rule's nodes: for each its code in a file, its word in a line, its number of
// children, and the sort of argument that it takes.
ghost use Rattle.std.specs.Prelude.{◌≡◌};
ghost use Rattle.syntax.specs.Conversions.{Finds};
ghost use Rattle.syntax.specs.Kinds.{arity, code_of, sort_of, word_of};
ghost use Rattle.syntax.specs.declared.kind.Kind.{Kind};

use crate::fault::Fault;

// The number beside each is its code in a file.
#[derive(Clone, Copy, Debug, PartialEq, Eq)]
pub enum Kind {
    Hole = 0,
    Num = 1,
    Var = 2,
    Nil = 3,
    Lam = 4,
    Fix = 5,
    Sel = 6,
    App = 8,
    Add = 9,
    Ext = 10,
    Ifz = 12,
}

// What a kind takes as its argument.
#[derive(Clone, Copy, Debug, PartialEq, Eq)]
pub enum Sort {
    Nothing,
    Number,
    Name,
    Label,
}

impl From<Kind> for u32 {
    ghost from_gives = { λ kind code. code ≡ code_of kind };

    fn from(kind: Kind) -> u32 {
        kind as u32
    }
}

// The kind that has a code, if one has.
impl TryFrom<u32> for Kind {
    type Error = Fault;

    ghost try_from_gives = { λ code r. Finds (λ k. code_of k ≡ code) r };

    fn try_from(code: u32) -> Result<Kind, Fault> {
        match code {
            0 => Ok(Kind::Hole),
            1 => Ok(Kind::Num),
            2 => Ok(Kind::Var),
            3 => Ok(Kind::Nil),
            4 => Ok(Kind::Lam),
            5 => Ok(Kind::Fix),
            6 => Ok(Kind::Sel),
            8 => Ok(Kind::App),
            9 => Ok(Kind::Add),
            10 => Ok(Kind::Ext),
            12 => Ok(Kind::Ifz),
            7 | 11 | 13.. => Err(Fault::Misfit),
        }
    }
}

// The kind that has a word, if one has.
impl TryFrom<&[u8]> for Kind {
    type Error = Fault;

    ghost try_from_gives = { λ word r. Finds (λ k. word_of k ≡ word.now) r };

    fn try_from(word: &[u8]) -> Result<Kind, Fault> {
        match word {
            b"hole" => Ok(Kind::Hole),
            b"num" => Ok(Kind::Num),
            b"var" => Ok(Kind::Var),
            b"nil" => Ok(Kind::Nil),
            b"lam" => Ok(Kind::Lam),
            b"fix" => Ok(Kind::Fix),
            b"sel" => Ok(Kind::Sel),
            b"app" => Ok(Kind::App),
            b"add" => Ok(Kind::Add),
            b"ext" => Ok(Kind::Ext),
            b"ifz" => Ok(Kind::Ifz),
            _ => Err(Fault::Misfit),
        }
    }
}

impl Kind {
    // The word that stands for the kind in a line.
    pub fn word(self) -> &'static [u8]
        ensures { result.now ≡ word_of self }
    {
        match self {
            Kind::Hole => b"hole",
            Kind::Num => b"num",
            Kind::Var => b"var",
            Kind::Nil => b"nil",
            Kind::Lam => b"lam",
            Kind::Fix => b"fix",
            Kind::Sel => b"sel",
            Kind::App => b"app",
            Kind::Add => b"add",
            Kind::Ext => b"ext",
            Kind::Ifz => b"ifz",
        }
    }

    // How many children a node of the kind has.
    pub fn arity(self) -> usize
        ensures { result ≡ arity self }
    {
        u32::from(self) as usize / 4
    }

    // What a node of the kind takes as its argument.
    pub fn sort(self) -> Sort
        ensures { result ≡ sort_of self }
    {
        match self {
            Kind::Num => Sort::Number,
            Kind::Var | Kind::Lam => Sort::Name,
            Kind::Sel | Kind::Ext => Sort::Label,
            Kind::Hole | Kind::Nil | Kind::Fix | Kind::App | Kind::Add | Kind::Ifz => Sort::Nothing,
        }
    }
}
