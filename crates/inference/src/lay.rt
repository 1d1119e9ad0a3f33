// Laying terms out as cells, off the bytes that spell them.
ghost use Rattle.std.specs.Prelude.{◌≡◌, length};
ghost use Rattle.typing.specs.Heads.{parts_of};
ghost use Rattle.inference.specs.Layouts.{LaysHead, LaysTerm, Takes};
ghost use Rattle.inference.specs.Tables.{graph_of};

use crate::base::Base;
use crate::table::Table;
use forms::number::read_number;
use syntax::fault::Fault;
use typing::cell::Cell;
use typing::head::{Head, Token};

// Lays out the term at the front of some bytes, whose variables have the cells from a base on. The
// answer is its cell and the bytes behind it.
#[cycle(lays_term)]
pub(crate) fn lay_term<'a>(
    bytes: &'a [u8],
    base: Base,
    table: &mut Table,
) -> Result<(usize, &'a [u8]), Fault>
    ensures takes { Takes 1 bytes.now result }
    ensures lays { LaysTerm base.cell bytes.now (graph_of table.old) (graph_of table.new) result }
{
    let (token, rest) = read_number(bytes)?;
    match Token::from(token) {
        Token::Variable(k) => Ok((base.cell + k as usize, rest)),
        Token::Head(head) => lay_head(head, rest, base, table),
    }
}

// Lays out a head, applied in turn to the terms that stand one behind another at the front of some
// bytes, as many as it has parts.
#[cycle(lays_term)]
fn lay_head<'a>(
    head: Head,
    bytes: &'a [u8],
    base: Base,
    table: &mut Table,
) -> Result<(usize, &'a [u8]), Fault>
    ensures takes { Takes 0 bytes.now result }
    ensures lays { LaysHead base.cell head bytes.now (graph_of table.old) (graph_of table.new) result }
{
    let mut cell = table.push(Cell::Atom(head))?;
    let mut rest = bytes;
    for _part in 0..part_count(head) {
        let (part, behind) = lay_term(rest, base, table)?;
        cell = table.push(Cell::Apply(cell, part))?;
        rest = behind;
    }
    Ok((cell, rest))
}

// How many parts a head has, where there are four labels.
fn part_count(head: Head) -> usize
    ensures { result ≡ length (parts_of 4 head) }
{
    match head {
        Head::Num | Head::Absent => 0,
        Head::Present => 1,
        Head::Fun => 2,
        Head::Rec => 4,
    }
}
