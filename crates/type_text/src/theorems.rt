// Theorems that the specifications state, each on a function that answers nothing.
ghost use Rattle.type_text.specs.TypeTexts.{WorkedTexts};

// Each type of the table of worked texts has its text.
pub fn worked_texts()
    ensures { WorkedTexts }
{}
