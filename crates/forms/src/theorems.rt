// Theorems that the specifications state, each on a function that answers nothing.
ghost use Rattle.forms.specs.Outlines.{BareEnds, FormStands, WorkedOutlines};

// The entries and the type of a form stand in its string where the outline says.
pub fn form_stands()
    ensures { FormStands }
{}

// A string without a form ends behind its counts.
pub fn bare_ends()
    ensures { BareEnds }
{}

// Each string of the table of worked outlines has its outline, or none.
pub fn worked_outlines()
    ensures { WorkedOutlines }
{}
