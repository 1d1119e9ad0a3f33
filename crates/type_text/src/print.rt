// Types printed from their bytes, piece by piece, into a lent buffer.
ghost use Rattle.std.specs.Prelude.{◌≤◌, length};

use forms::number::read_number;
use syntax::fault::Fault;
use syntax::label::Label;
use typing::head::{Head, Token};

// The labels in the order of a record's places.
const LABELS: [Label; 4] = [Label::Row, Label::Col, Label::Ink, Label::Lit];

// The bytes that are left to print, and how far the lent buffer is written. Each method keeps the loan
// (`lent`): by that the lender learns what its buffer holds in the end.
#[derive(Drop)]
pub(crate) struct Printer<'a> {
    pub(crate) rest: &'a [u8],
    pub(crate) out: &'a mut [u8],
    pub(crate) at: usize,
    ghost within: { at ≤ length out.now },
}

impl<'a> Printer<'a> {
    ghost use Rattle.std.specs.Prelude.{◌≡◌, ℕ, List, ◌++◌, length, codes, decimal};
    ghost use Rattle.syntax.specs.Labels.{label_word};
    ghost use Rattle.typing.specs.Heads.{type};
    ghost use Rattle.typing.specs.Strings.{term_bytes};
    ghost use Rattle.typing.specs.Terms.{Term, rec};
    ghost use Rattle.type_text.specs.Prints.{AllPlaces, Fielded, NoLonger, Put, Room, Shorter, Shown, Spelt, TookToken, places_bytes};
    ghost use Rattle.type_text.specs.TypeTexts.{type_text};

    pub(crate) fn new(bytes: &'a [u8], out: &'a mut [u8]) -> Printer<'a>
        ensures rest { result.rest.now ≡ bytes.now }
        ensures at { result.at ≡ 0 }
        ensures out { result.out.now ≡ out.old }
        ensures lent { result.out.ghost_name ≡ out.entry.ghost_name }
    {
        Printer {
            rest: bytes,
            out,
            at: 0,
        }
    }

    // The token of the term at the front.
    fn token(&mut self) -> Result<Token, Fault>
        ensures token { TookToken self.old self.new result }
        ensures lent { self.new.out.ghost_name ≡ self.old.out.ghost_name }
    {
        let (token, rest) = read_number(self.rest)?;
        self.go_on(rest);
        Ok(Token::from(token))
    }

    // Leaves these bytes. They come as an argument, in two words: straight from a pair they would be
    // copied across its words, and each next read would wait for the copy.
    fn go_on(&mut self, rest: &'a [u8])
        ensures rest { self.new.rest.now ≡ rest.now }
        ensures others { (self.new.at ≡ self.old.at) × (self.new.out ≡ self.old.out) }
    {
        self.rest = rest;
    }

    // Writes a piece behind the text. It stands within its callers, so that a short piece of known length
    // is stored, and not copied by a call.
    #[inline(always)]
    fn put(&mut self, piece: &[u8]) -> Result<(), Fault>
        ensures text { Put piece.now self.old self.new result }
        ensures lent { self.new.out.ghost_name ≡ self.old.out.ghost_name }
    {
        if self.out.len() - self.at < piece.len() {
            return Err(Fault::ShortBuffer);
        }
        let end = self.at + piece.len();
        self.out[self.at..end].copy_from_slice(piece);
        self.at = end;
        Ok(())
    }

    // Writes a variable by its number.
    fn put_variable(&mut self, k: u32) -> Result<(), Fault>
        ensures text { Put (codes "v" ++ decimal k) self.old self.new result }
        ensures lent { self.new.out.ghost_name ≡ self.old.out.ghost_name }
    {
        self.put(b"v")?;
        self.put(itoa::Buffer::new().format(k).as_bytes())
    }

    // Writes what stands before the type of a field: a gap, the label, and a mark.
    fn put_label(&mut self, gap: &[u8], label: Label, mark: &[u8]) -> Result<(), Fault>
        ensures text { Put (gap.now ++ (label_word label ++ mark.now)) self.old self.new result }
        ensures lent { self.new.out.ghost_name ≡ self.old.out.ghost_name }
    {
        self.put(gap)?;
        self.put(label.word())?;
        self.put(mark)
    }

    // Prints the type that stands at the front.
    #[cycle(prints_type)]
    pub(crate) fn print_type(&mut self) -> Result<(), Fault>
        ensures text { (t : Term) (rest : List ℕ) → Spelt type t → self.old.rest.now ≡ term_bytes t ++ rest → Room (type_text t) self.old → Shown (type_text t) rest self.old self.new result }
        ensures shorter { Shorter self.old self.new result }
        ensures lent { self.new.out.ghost_name ≡ self.old.out.ghost_name }
    {
        match self.token()? {
            Token::Variable(k) => self.put_variable(k),
            Token::Head(Head::Num) => self.put(b"num"),
            Token::Head(Head::Fun) => {
                self.put(b"(")?;
                self.print_type()?;
                self.put(b"->")?;
                self.print_type()?;
                self.put(b")")
            }
            Token::Head(Head::Rec) => self.print_record(),
            Token::Head(Head::Absent | Head::Present) => Err(Fault::Unlawful),
        }
    }

    // Prints the places of a record.
    #[cycle(prints_type)]
    fn print_record(&mut self) -> Result<(), Fault>
        ensures text { (ts : List Term) (rest : List ℕ) → AllPlaces ts → length ts ≡ 4 → self.old.rest.now ≡ places_bytes ts ++ rest → Room (type_text (rec ts)) self.old → Shown (type_text (rec ts)) rest self.old self.new result }
        ensures shorter { NoLonger self.old self.new result }
        ensures lent { self.new.out.ghost_name ≡ self.old.out.ghost_name }
    {
        self.put(b"{")?;
        let mut gap: &[u8] = b"";
        for label in LABELS {
            if self.print_field(gap, label)? {
                gap = b",";
            }
        }
        self.put(b"}")
    }

    // Prints a field, with a gap before it, from the place at the front, and answers whether anything was
    // shown: an absent one shows nothing.
    #[cycle(prints_type)]
    fn print_field(&mut self, gap: &[u8], label: Label) -> Result<bool, Fault>
        ensures text { Fielded label gap.now self.old self.new result }
        ensures shorter { Shorter self.old self.new result }
        ensures lent { self.new.out.ghost_name ≡ self.old.out.ghost_name }
    {
        match self.token()? {
            Token::Variable(k) => {
                self.put_label(gap, label, b"?")?;
                self.put_variable(k)?;
                Ok(true)
            }
            Token::Head(Head::Absent) => Ok(false),
            Token::Head(Head::Present) => {
                self.put_label(gap, label, b":")?;
                self.print_type()?;
                Ok(true)
            }
            Token::Head(Head::Num | Head::Fun | Head::Rec) => Err(Fault::Unlawful),
        }
    }
}
