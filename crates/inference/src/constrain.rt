// What a node asks of the cells of its children's types, kind by kind. Each answers the cell of the
// node's own type; those from `fresh` on are free.
ghost use Rattle.std.specs.Prelude.{◌≡◌, ◌+◌, ◌≤◌, true, [], ◌∷◌, length};
ghost use Rattle.syntax.specs.Arguments.{fits};
ghost use Rattle.syntax.specs.declared.argument.Argument.TheVariants.{Label as OfLabel, Name as OfName, Nothing};
ghost use Rattle.syntax.specs.declared.kind.Kind.TheVariants.{Add, App, Ext, Fix, Ifz, Lam, Nil, Sel, Var};
ghost use Rattle.inference.specs.Drafts.{DoesIf, state_of};
ghost use Rattle.inference.specs.Posed.{cells_from, constrain_at};

use crate::base::Base;
use crate::draft::Draft;
use crate::entry::Entry;
use syntax::argument::{Argument, Symbol};
use syntax::fault::Fault;
use syntax::kind::Kind;
use syntax::label::Label;
use syntax::name::Name;
use typing::head::Head;

// A variable lists its name with the cell of its type.
fn variable(name: Name, fresh: usize, draft: &mut Draft) -> Result<usize, Fault>
    ensures { DoesIf (constrain_at Var (OfName name) fresh [] (state_of draft.old)) (state_of draft.new) result }
{
    draft.put(Entry { name, cell: fresh })?;
    Ok(fresh)
}

// The empty record has four absent places.
fn nil(draft: &mut Draft) -> Result<usize, Fault>
    ensures { DoesIf (constrain_at Nil Nothing 0 [] (state_of draft.old)) (state_of draft.new) result }
{
    let absent = draft.atom(Head::Absent)?;
    draft.build(Head::Rec, &[absent, absent, absent, absent])
}

// A function from what its name stands for to the type of its body.
fn lambda(name: Name, fresh: usize, body: usize, draft: &mut Draft) -> Result<usize, Fault>
    ensures { DoesIf (constrain_at Lam (OfName name) fresh (body ∷ []) (state_of draft.old)) (state_of draft.new) result }
{
    let bound = draft.remove(name, fresh);
    draft.build(Head::Fun, &[bound, body])
}

// A fixed point of a function from a type to itself.
fn fixed_point(fresh: usize, function: usize, draft: &mut Draft) -> Result<usize, Fault>
    ensures { DoesIf (constrain_at Fix Nothing fresh (function ∷ []) (state_of draft.old)) (state_of draft.new) result }
{
    let whole = draft.build(Head::Fun, &[fresh, fresh])?;
    draft.equate(function, whole)?;
    Ok(fresh)
}

// A function applied to an argument.
fn application(
    fresh: usize,
    function: usize,
    argument: usize,
    draft: &mut Draft,
) -> Result<usize, Fault>
    ensures { DoesIf (constrain_at App Nothing fresh (function ∷ argument ∷ []) (state_of draft.old)) (state_of draft.new) result }
{
    let whole = draft.build(Head::Fun, &[argument, fresh])?;
    draft.equate(function, whole)?;
    Ok(fresh)
}

// A sum of two numbers.
fn addition(left: usize, right: usize, draft: &mut Draft) -> Result<usize, Fault>
    ensures { DoesIf (constrain_at Add Nothing 0 (left ∷ right ∷ []) (state_of draft.old)) (state_of draft.new) result }
{
    let number = draft.atom(Head::Num)?;
    draft.equate(right, number)?;
    draft.equate(left, number)?;
    Ok(number)
}

// A test of a number, whose two branches have one type.
fn test(number: usize, zero: usize, other: usize, draft: &mut Draft) -> Result<usize, Fault>
    ensures { DoesIf (constrain_at Ifz Nothing 0 (number ∷ zero ∷ other ∷ []) (state_of draft.old)) (state_of draft.new) result }
{
    let whole = draft.atom(Head::Num)?;
    draft.equate(zero, other)?;
    draft.equate(number, whole)?;
    Ok(zero)
}

// Four cells behind so many, as the places of a record.
fn places(base: Base, before: usize) -> [usize; 4]
    requires { before ≤ 1 }
    ensures { result ≡ cells_from 4 (base.cell + before) }
{
    let from = base.cell + before;
    [from, from + 1, from + 2, from + 3]
}

// A place of a record that has it.
fn selection(label: Label, fresh: Base, fields: usize, draft: &mut Draft) -> Result<usize, Fault>
    ensures { DoesIf (constrain_at Sel (OfLabel label) fresh.cell (fields ∷ []) (state_of draft.old)) (state_of draft.new) result }
{
    let mut shape = places(fresh, 1);
    shape[u32::from(label) as usize] = draft.build(Head::Present, &[fresh.cell])?;
    let whole = draft.build(Head::Rec, &shape)?;
    draft.equate(fields, whole)?;
    Ok(fresh.cell)
}

// A record with one place made present, whatever it was.
fn extension(
    label: Label,
    fresh: Base,
    fields: usize,
    value: usize,
    draft: &mut Draft,
) -> Result<usize, Fault>
    ensures { DoesIf (constrain_at Ext (OfLabel label) fresh.cell (fields ∷ value ∷ []) (state_of draft.old)) (state_of draft.new) result }
{
    let mut shape = places(fresh, 0);
    let whole = draft.build(Head::Rec, &shape)?;
    shape[u32::from(label) as usize] = draft.build(Head::Present, &[value])?;
    let extended = draft.build(Head::Rec, &shape)?;
    draft.equate(fields, whole)?;
    Ok(extended)
}

pub(crate) fn constrain(
    symbol: Symbol,
    fresh: Base,
    types: &[usize; 3],
    draft: &mut Draft,
) -> Result<usize, Fault>
    requires { fits symbol ≡ true }
    ensures { DoesIf (constrain_at symbol.kind symbol.argument fresh.cell types.now (state_of draft.old)) (state_of draft.new) result }
{
    match (symbol.kind, symbol.argument) {
        (Kind::Hole, _) => Ok(fresh.cell),
        (Kind::Num, _) => draft.atom(Head::Num),
        (Kind::Var, Argument::Name(name)) => variable(name, fresh.cell, draft),
        (Kind::Nil, _) => nil(draft),
        (Kind::Lam, Argument::Name(name)) => lambda(name, fresh.cell, types[0], draft),
        (Kind::Fix, _) => fixed_point(fresh.cell, types[0], draft),
        (Kind::Sel, Argument::Label(label)) => selection(label, fresh, types[0], draft),
        (Kind::App, _) => application(fresh.cell, types[0], types[1], draft),
        (Kind::Add, _) => addition(types[0], types[1], draft),
        (Kind::Ext, Argument::Label(label)) => {
            extension(label, fresh, types[0], types[1], draft)
        }
        (Kind::Ifz, _) => test(types[0], types[1], types[2], draft),
        _ => Err(Fault::Misfit),
    }
}
